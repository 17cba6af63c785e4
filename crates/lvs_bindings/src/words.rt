// Where the span of a Tag is, and the words that it comes to.
ghost use Rattle.lvs_bindings.specs.Slots.{IndexOf, WordsOf};

use crate::{KEY_ORIGIN, PACKET_ORIGIN, Span};
use lvs_spec::MAX_TAG;

// Where the span of a Tag is, if it is within the limit.
pub(crate) fn slot_index(tag: u64) -> Option<usize>
    ensures { IndexOf tag result }
{
    if 1 <= tag && tag <= MAX_TAG {
        Some((tag - 1) as usize)
    } else {
        None
    }
}

// The three words of a Tag for a caller: where its component starts in the name of origin, its size, and the origin; all 0 for an unbound Tag.
pub(crate) fn tag_words(packet: &[u8], slot: Option<Span>) -> [u32; 3]
    ensures { WordsOf packet.now slot result }
{
    let Some(span) = slot else {
        return [0, 0, 0];
    };
    let start = span.start;
    let n = packet.len();
    if (start as usize) < n {
        [start, span.size, PACKET_ORIGIN]
    } else {
        [(start as usize - n) as u32, span.size, KEY_ORIGIN]
    }
}
