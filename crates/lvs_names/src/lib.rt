// Names and their components (docs/format.md, 6), read at their places and never copied.
//
// A layer below the public calls: any bytes may be a name, and a `Component` is one that is cut out.
#![tactic(auto)]

mod parts;

ghost use Rattle.std.specs.Prelude.{◌≡◌, eqb, length, take};
ghost use Rattle.tlv.specs.Bytes.{same_bytes};
ghost use Rattle.lvs_spec.specs.Model.{component_of};
ghost use Rattle.lvs_names.specs.Answers.{NameOf, read_row, header_of, count_of};
ghost use Rattle.lvs_names.specs.Contents.{ContentOf, ComponentAt};
ghost use Rattle.lvs_names.specs.Comparing.{ComparedOf, Headed, LastDifference};

use lvs_spec::refusal::{NameFault, Refusal, Side};
pub use parts::Component;
use tlv::{Place, Read};

const NAME: u32 = 7;

// The components of a name: where the first starts, and how many there are.
#[derive(Clone, Copy)]
pub struct Row {
    pub start: usize,
    pub count: usize,
}

// A component: its type, and its value as a part of the slice that it was read from.
#[derive(Clone, Copy)]
pub struct Content {
    pub typ: u32,
    pub start: usize,
    pub end: usize,
}

// What comparing two components has found, and how many bytes of their values it looked at.
#[derive(Clone, Copy)]
pub struct Compared {
    pub equal: bool,
    pub looked: usize,
}

pub fn read_name(name: &[u8], side: Side) -> Result<Row, Refusal>
    ensures { NameOf side name.now result }
{
    if lvs_spec::MAX_NAME_BYTES < name.len() {
        let fault = NameFault::TooLong;
        return Err(Refusal::Name { side, fault });
    }
    let Some(row) = components(name) else {
        let fault = NameFault::Malformed;
        return Err(Refusal::Name { side, fault });
    };
    if lvs_spec::MAX_COMPONENTS < row.count {
        let fault = NameFault::ManyComponents;
        return Err(Refusal::Name { side, fault });
    }
    Ok(row)
}

// The components of a name, if it is one.
#[tactic(auto, unfolding(crate::specs::Answers::read_row))]
fn components(name: &[u8]) -> Option<Row>
    ensures { result ≡ read_row name.now }
{
    let start = header(name)?;
    let count = count(name, start)?;
    Some(Row { start, count })
}

// Where the components of a name start, if the slice is one element of type 7.
fn header(name: &[u8]) -> Option<usize>
    ensures { result ≡ header_of name.now }
{
    let place = Place { at: 0 };
    let Read::Found {
        typ,
        start,
        end,
        ..
    } = place.element(name)
    else {
        return None;
    };
    if typ == NAME && end == name.len() {
        Some(start)
    } else {
        None
    }
}

// How many components stand from a place of a name on, up to its end. By places and not by an iterator, which does not tell the end of the bytes
// from bytes that no element begins with.
fn count(name: &[u8], from: usize) -> Option<usize>
    ensures { result ≡ count_of name.now from }
{
    let mut place = Place { at: from };
    let mut n: usize = 0;
    loop {
        match place.element(name) {
            Read::Found { typ, next, .. } => {
                if lvs_spec::MAX_COMPONENT_TYPE < typ {
                    return None;
                }
                n += 1;
                place = next;
            }
            Read::End => {
                return Some(n);
            }
            Read::Malformed => {
                return None;
            }
        }
    }
}

/// The component at a place of a name; it ends where its bytes do.
pub fn component_at(name: &[u8], at: usize) -> Option<Component<'_>>
    ensures { ComponentAt name.now at result }
{
    let place = Place { at };
    let Read::Found { start, end, .. } = place.element(name) else {
        return None;
    };
    Some(Component::new(&name[at..end], start - at))
}

// The component that a slice begins with; where there is none, type 0 and no bytes. The contract leaves open where that empty part lies.
pub fn read_component(s: &[u8]) -> Content
    ensures { ContentOf s.now result }
{
    let place = Place { at: 0 };
    let Read::Found {
        typ,
        start,
        end,
        ..
    } = place.element(s)
    else {
        return Content {
            typ: 0,
            start: 0,
            end: 0,
        };
    };
    Content { typ, start, end }
}

// Compares the component that `s` begins with with `c`: type and length first, then the values from the back. A layer below: any bytes may be
// `s`; `c` is what the walk has cut out of a name.
#[inline]
pub fn compare(s: &[u8], c: Component) -> Compared
    ensures { ComparedOf (component_of s.now) (component_of c.entry.bytes.now) result }
{
    let Component { bytes, header, .. } = c;
    let n = bytes.len();
    if s.len() < n {
        return Compared {
            equal: false,
            looked: 0,
        };
    }
    if !same_header(s, bytes, header) {
        return Compared {
            equal: false,
            looked: 0,
        };
    }
    let left = last_difference(s, bytes, header);
    if left == header {
        return Compared {
            equal: true,
            looked: n - header,
        };
    }
    Compared {
        equal: false,
        looked: n - left + 1,
    }
}

// Whether `s` begins with the header of `c`. Numbers have only one form, so that bytes are compared; nearly all headers have two, the length being
// the second. It is compared first, since it differs most often.
fn same_header(s: &[u8], c: &[u8], header: usize) -> bool
    requires { Headed s.now c.now header }
    ensures { result ≡ same_bytes (take header s.now) (take header c.now) }
{
    if s[1] != c[1] {
        return false;
    }
    if s[0] != c[0] {
        return false;
    }
    tlv::same_bytes(&s[2..header], &c[2..header])
}

// The place behind the last byte of `c` that is another one in `s`, as far down as `header`; `header` where there is none. Never a part of its caller: the
// walk would keep the loop's places on its stack. A byte takes as many instructions either way (docs/LOOK-BACK.md).
#[inline(never)]
fn last_difference(s: &[u8], c: &[u8], header: usize) -> usize
    requires { Headed s.now c.now header }
    ensures { LastDifference s.now c.now header result }
{
    for at in (header..c.len()).rev() {
        if s[at] != c[at] {
            return at + 1;
        }
    }
    header
}

// Whether the components that two slices begin with have the same type.
pub fn same_type(a: &[u8], b: &[u8]) -> bool
    ensures { result ≡ eqb (component_of a.now).type (component_of b.now).type }
{
    let x = read_component(a);
    let y = read_component(b);
    x.typ == y.typ
}

// How many bytes a component's value has.
pub fn value_size(s: &[u8]) -> usize
    ensures { result ≡ length (component_of s.now).inside }
{
    let x = read_component(s);
    x.end - x.start
}
