// The bytes of a description: how many there are, and the bytes themselves in a lent buffer. One pass over the two lists does both, as
// C's snprintf does: it counts always, and writes where there is room. Each nested element is written into its place behind its header, a
// part of the buffer that is lent to its writer.
#![tactic(auto)]

mod cursor;
mod leaves;
mod parts;

ghost use Rattle.std.specs.Prelude.{◌≡◌, Some};
ghost use Rattle.lvs_description.specs.Description.{model, description_of};
ghost use Rattle.lvs_write.specs.Spelled.{spelled};
ghost use Rattle.lvs_write.specs.Steps.{size_of, version_from, Writes, Written};

use cursor::{Cursor, cap};
use leaves::{has_room, write_pair};
use lvs_spec::types::{NAMED_PATTERN_CNT, NODE_ID};
use parts::{Container, Part, write_many};
use tlv_writer::put_bytes;

const VERSION: [u8; 6] = [0x61, 0x04, 0x00, 0x01, 0x10, 0x00];

// The two lists that describe a model: numbers, and the bytes of all texts one after the other.
#[derive(Clone, Copy)]
pub struct Description<'a> {
    pub numbers: &'a [u64],
    pub texts: &'a [u8],
}

impl<'a> Description<'a> {
    // How many bytes the model has, counted up to one more than a model may have; none where the two lists are no description.
    pub fn size(self) -> Option<usize>
        ensures { result ≡ size_of (description_of self.entry.numbers.now self.entry.texts.now) }
    {
        let end = self.write_model(&mut [0u8; 0])?;
        if !end.numbers.is_empty() {
            return None;
        }
        if !end.texts.is_empty() {
            return None;
        }
        Some(cap(end.at))
    }

    // Writes the model's bytes over the front of a buffer that has room for them; those behind stay.
    pub fn write(self, out: &mut [u8])
        ensures { Written self.entry.numbers.now self.entry.texts.now out.old out.new }
    {
        self.write_model(out);
    }

    fn write_model(self, out: &mut [u8]) -> Option<Cursor<'a>>
        ensures { Writes (spelled model) out.old out.new
            (record { numbers = self.entry.numbers; texts = self.entry.texts; at = 0 }) result }
    {
        let start = Cursor {
            numbers: self.numbers,
            texts: self.texts,
            at: 0,
        };
        let version = write_version(out, start);
        let count = write_pair(NODE_ID, NAMED_PATTERN_CNT, out, version)?;
        let nodes = write_many(Part::Nested(Container::Node), out, count)?;
        write_many(Part::Nested(Container::Symbol), out, nodes)
    }
}

// The first element, which the description does not mention.
fn write_version<'a>(out: &mut [u8], s: Cursor<'a>) -> Cursor<'a>
    ensures { Writes version_from out.old out.new s.entry (Some result) }
{
    if has_room(out.len(), s.at, VERSION.len()) {
        put_bytes(out, s.at, &VERSION);
    }
    s.behind(VERSION.len())
}
