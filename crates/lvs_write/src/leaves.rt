// Elements whose size is known from a few numbers: integers, texts, components and ValueEdges.
ghost use Rattle.std.specs.Prelude.{◌≡◌, ◌+◌, ◌^◌, ◌≤◌, ◌<◌, ◌++◌, leb, length};
ghost use Rattle.tlv_writer.specs.Stored.{Stored};
ghost use Rattle.lvs_spec.specs.Types as type;
ghost use Rattle.lvs_description.specs.Format.{integer, integer_width, integer_bytes, component, ◌then◌, within};
ghost use Rattle.lvs_description.specs.Description.{value_edge};
ghost use Rattle.lvs_write.specs.Spelled.{spelled, text_from};
ghost use Rattle.lvs_write.specs.Steps.{el, edge_bytes, element_size, header_bytes, Puts, Writes};

use crate::cursor::Cursor;
use lvs_spec::types::{NODE_ID, VALUE, VALUE_EDGE};
use tlv_writer::{number_size, put_bytes, put_digits, put_number};

// ---- sizes

// How many bytes an element takes whose inside has n.
#[tactic(auto, unfolding(crate::specs::Steps::element_size))]
pub(crate) fn element_size(typ: u64, n: usize) -> usize
    requires { n + 18 < 2 ^ 64 }
    ensures { result ≡ element_size typ n }
{
    number_size(typ) + (number_size(n as u64) + n)
}

// How many bytes an integer takes in the shortest of its four widths.
#[tactic(auto, unfolding(lvs_description::specs::Format::integer_width))]
fn integer_width(n: u64) -> usize
    ensures { result ≡ integer_width n }
{
    match n {
        0..=0xff => 1,
        0x100..=0xffff => 2,
        0x1_0000..=0xffff_ffff => 4,
        _ => 8,
    }
}

// How many bytes an element takes that is an integer.
fn integer_size(typ: u64, n: u64) -> usize
    ensures { (result ≡ length (el typ (integer_bytes n))) × (result ≤ 26) }
{
    element_size(typ, integer_width(n))
}

// Whether there are n bytes from `at` on.
pub(crate) fn has_room(len: usize, at: usize, n: usize) -> bool
    ensures { result ≡ leb (at + n) len }
{
    at <= len && n <= len - at
}

// ---- elements in their places; each answers its size

// Type and length. Answers the place behind them.
pub(crate) fn put_header(out: &mut [u8], at: usize, typ: u64, n: u64) -> usize
    requires { at + length (header_bytes typ n) ≤ length out.old }
    ensures { (result ≡ at + length (header_bytes typ n)) ×
        Stored out.old out.new at (header_bytes typ n) }
{
    let middle = put_number(out, at, typ);
    put_number(out, middle, n)
}

fn put_integer(out: &mut [u8], at: usize, typ: u64, n: u64) -> usize
    ensures { Puts out.old out.new at (el typ (integer_bytes n)) result }
{
    let w = integer_width(n);
    let size = element_size(typ, w);
    if has_room(out.len(), at, size) {
        let inside = put_header(out, at, typ, w as u64);
        put_digits(out, inside, w, n);
    }
    size
}

fn put_text(out: &mut [u8], at: usize, typ: u64, src: &[u8]) -> usize
    ensures { Puts out.old out.new at (el typ src.now) result }
{
    let n = src.len();
    let size = element_size(typ, n);
    if has_room(out.len(), at, size) {
        let inside = put_header(out, at, typ, n as u64);
        put_bytes(out, inside, src);
    }
    size
}

// A component of type `component` in an element of type `typ`.
fn put_component(out: &mut [u8], at: usize, typ: u64, component: u64, src: &[u8]) -> usize
    ensures { Puts out.old out.new at (el typ (el component src.now)) result }
{
    let n = element_size(component, src.len());
    let size = element_size(typ, n);
    if has_room(out.len(), at, size) {
        let inside = put_header(out, at, typ, n as u64);
        put_text(out, inside, component, src);
    }
    size
}

// Two integers, one behind the other.
fn put_pair(out: &mut [u8], at: usize, a: u64, x: u64, b: u64, y: u64) -> usize
    ensures { Puts out.old out.new at (el a (integer_bytes x) ++ el b (integer_bytes y)) result }
{
    let first = integer_size(a, x);
    let size = first + integer_size(b, y);
    if has_room(out.len(), at, size) {
        put_integer(out, at, a, x);
        put_integer(out, at + first, b, y);
    }
    size
}

// A ValueEdge: its destination, and its component in a Value, in their place behind its header.
fn put_value_edge(out: &mut [u8], at: usize, to: u64, component: u64, src: &[u8]) -> usize
    ensures { Puts out.old out.new at (el type.ValueEdge (edge_bytes to component src.now)) result }
{
    let first = integer_size(NODE_ID as u64, to);
    let n = first + element_size(VALUE as u64, element_size(component, src.len()));
    let size = element_size(VALUE_EDGE as u64, n);
    if has_room(out.len(), at, size) {
        let start = put_header(out, at, VALUE_EDGE as u64, n as u64);
        let end = start + n;
        put_edge_inside(&mut out[start..end], to, component, src);
    }
    size
}

// The inside of a ValueEdge, over all of `out`.
fn put_edge_inside(out: &mut [u8], to: u64, component: u64, src: &[u8])
    requires { length (edge_bytes to component src.now) ≡ length out.old }
    ensures { Stored out.old out.new 0 (edge_bytes to component src.now) }
{
    let first = put_integer(out, 0, NODE_ID as u64, to);
    put_component(out, first, VALUE as u64, component, src);
}

// ---- a leaf of the description

pub(crate) fn write_integer<'a>(typ: u32, out: &mut [u8], s: Cursor<'a>) -> Option<Cursor<'a>>
    ensures { Writes (spelled (integer typ)) out.old out.new s.entry result }
{
    let (n, s) = s.number()?;
    let size = put_integer(out, s.at, typ as u64, n);
    Some(s.behind(size))
}

pub(crate) fn write_pair<'a>(a: u32, b: u32, out: &mut [u8], s: Cursor<'a>) -> Option<Cursor<'a>>
    ensures { Writes (spelled (integer a then integer b)) out.old out.new s.entry result }
{
    let (x, s) = s.number()?;
    let (y, s) = s.number()?;
    let size = put_pair(out, s.at, a as u64, x, b as u64, y);
    Some(s.behind(size))
}

pub(crate) fn write_text<'a>(typ: u32, out: &mut [u8], s: Cursor<'a>) -> Option<Cursor<'a>>
    ensures { Writes (text_from typ) out.old out.new s.entry result }
{
    let (text, s) = s.text()?;
    let size = put_text(out, s.at, typ as u64, text);
    Some(s.behind(size))
}

// A Value.
pub(crate) fn write_component<'a>(out: &mut [u8], s: Cursor<'a>) -> Option<Cursor<'a>>
    ensures { Writes (spelled (component type.Value)) out.old out.new s.entry result }
{
    let (kind, s) = s.number()?;
    let (text, s) = s.text()?;
    let size = put_component(out, s.at, VALUE as u64, kind, text);
    Some(s.behind(size))
}

// A ValueEdge, in one go: nothing in it has to be counted before its header.
pub(crate) fn write_value_edge<'a>(out: &mut [u8], s: Cursor<'a>) -> Option<Cursor<'a>>
    ensures { Writes (spelled (within type.ValueEdge value_edge)) out.old out.new s.entry result }
{
    let (to, s) = s.number()?;
    let (kind, s) = s.number()?;
    let (text, s) = s.text()?;
    let size = put_value_edge(out, s.at, to, kind, text);
    Some(s.behind(size))
}
