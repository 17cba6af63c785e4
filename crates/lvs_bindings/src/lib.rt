// The store of bindings: for each Tag, where its component is in the two names; and the three words for each Tag that a caller gets.
//
// A layer below the public calls: `requires` asks for a buffer that has room for the words, which the calls have tested.
#![tactic(auto)]

pub mod names;
mod words;

ghost use Rattle.std.specs.Prelude.{◌≡◌, length};
ghost use Rattle.lvs_spec.specs.Limits.{max_tag};

use lvs_spec::MAX_TAG;
use words::{slot_index, tag_words};

// Where a component starts in the text of the two names, and its size.
#[derive(Clone, Copy)]
pub struct Span {
    pub start: u32,
    pub size: u32,
}

// What each Tag is bound to. Tags count from 1.
#[derive(Drop)]
pub struct Slots {
    pub spans: [Option<Span>; MAX_TAG as usize],
    pub ghost all: { length spans ≡ max_tag },
}

// The name that a binding is of, as the words for a caller say it.
pub const PACKET_ORIGIN: u32 = 1;

pub const KEY_ORIGIN: u32 = 2;

impl Slots {
    ghost use Rattle.std.specs.Prelude.{◌≤◌};
    ghost use Rattle.lvs_spec.specs.Limits.{binding_words};
    ghost use Rattle.lvs_bindings.specs.Slots.{clear, slot_at, bound_tag, bound_slots, cleared_slots, Wrote};

    // No Tag is bound.
    pub fn new() -> Slots
        ensures { result.spans ≡ clear }
    {
        Slots {
            spans: [None; MAX_TAG as usize],
        }
    }

    // What a Tag is bound to; nothing where there is no such Tag.
    pub fn get(&self, tag: u64) -> Option<Span>
        ensures { result ≡ slot_at self.now.spans tag }
    {
        self.spans[slot_index(tag)?]
    }

    // Binds a Tag, and answers it; where there is no such Tag, nothing is bound.
    pub fn bind(&mut self, tag: u64, span: Span) -> Option<u64>
        ensures tag { result ≡ bound_tag tag }
        ensures spans { self.new.spans ≡ bound_slots tag span self.old.spans }
    {
        let Some(i) = slot_index(tag) else {
            return None;
        };
        self.spans[i] = Some(span);
        Some(tag)
    }

    // Unbinds a Tag.
    pub fn unbind(&mut self, tag: u64)
        ensures { self.new.spans ≡ cleared_slots tag self.old.spans }
    {
        if let Some(i) = slot_index(tag) {
            self.spans[i] = None;
        }
    }

    // Writes the words of the bindings over the first ones of a buffer, and says how many Tags are bound.
    pub fn write_words(&self, packet: &[u8], buffer: &mut [u32]) -> u32
        requires { binding_words ≤ length buffer.old }
        ensures { Wrote packet.now self.now.spans buffer.old result buffer.new }
    {
        let mut bound: u32 = 0;
        for (i, slot) in self.spans.iter().enumerate() {
            bound += u32::from(slot.is_some());
            let words = tag_words(packet, *slot);
            buffer[i * 3..i * 3 + 3].copy_from_slice(&words);
        }
        bound
    }
}
