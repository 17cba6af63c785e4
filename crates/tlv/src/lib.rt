// NDN's elements: a type, a length and that many bytes, read at a place of a slice and never copied.
#![tactic(auto)]

ghost use Rattle.std.specs.Prelude.{◌≡◌};
ghost use Rattle.tlv.specs.Bytes.{same_bytes};
ghost use Rattle.tlv.specs.Number.{width, least};
ghost use Rattle.tlv.specs.Fields.{elements, the_inside, number_of, the_integer};
ghost use Rattle.tlv.specs.Answers.{number_at, read_at, integer_of, elements_left};

// A position in a slice. It moves forward only by whole elements.
#[derive(Clone, Copy)]
pub struct Place {
    pub at: usize,
}

// What stands at a place. No Option: a caller that refuses must tell the end from what cannot be cut.
#[derive(Clone, Copy)]
pub enum Read {
    // An element: its inside is the part from start to end, and next is the place after it.
    Found {
        typ: u32,
        start: usize,
        end: usize,
        next: Place,
    },
    // Nothing: the slice ends here.
    End,
    // Bytes that no element begins with.
    Malformed,
}

// An element: its type, and its inside, which is a part of the bytes that it was read from.
#[derive(Clone, Copy)]
pub struct Element<'a> {
    pub typ: u32,
    pub inside: &'a [u8],
}

// The elements of a slice from a place on: up to its end, or to where no element stands.
#[derive(Clone, Copy)]
pub struct Elements<'a> {
    pub src: &'a [u8],
    pub place: Place,
}

// A number and the place behind it.
#[derive(Clone, Copy)]
struct Number {
    value: u64,
    next: usize,
}

impl Place {
    // The element at this place. Only its header is looked at: here, where type and length take one byte each, as nearly all do.
    pub fn element(self, s: &[u8]) -> Read
        ensures { result ≡ read_at s.now self.at }
    {
        let at = self.at;
        if s.len() <= at {
            return Read::End;
        }
        let typ = s[at] as u32;
        if 252 < typ {
            return self.wide_element(s);
        }
        if typ < 1 {
            return Read::Malformed;
        }
        let middle = at + 1;
        if s.len() <= middle {
            return Read::Malformed;
        }
        let len = s[middle] as usize;
        if 252 < len {
            return self.wide_element(s);
        }
        let start = middle + 1;
        if s.len() - start < len {
            return Read::Malformed;
        }
        let end = start + len;
        let next = Place { at: end };
        Read::Found {
            typ,
            start,
            end,
            next,
        }
    }

    // The same with numbers of any width. Apart, so that `element` is small enough to be inlined.
    fn wide_element(self, s: &[u8]) -> Read
        ensures { result ≡ read_at s.now self.at }
    {
        let at = self.at;
        if s.len() <= at {
            return Read::End;
        }
        let Some(
            Number {
                value: t,
                next: middle,
            },
        ) = number_at(s, at)
        else {
            return Read::Malformed;
        };
        if t < 1 {
            return Read::Malformed;
        }
        if 4294967295 < t {
            return Read::Malformed;
        }
        let Some(
            Number {
                value: len,
                next: start,
            },
        ) = number_at(s, middle)
        else {
            return Read::Malformed;
        };
        let left = (s.len() - start) as u64;
        if left < len {
            return Read::Malformed;
        }
        let typ = t as u32;
        let end = start + len as usize;
        Read::Found {
            typ,
            start,
            end,
            next: Place { at: end },
        }
    }
}

impl<'a> Elements<'a> {
    // All of a slice.
    pub fn of(src: &'a [u8]) -> Elements<'a>
        ensures left { elements_left result ≡ elements src.now }
        ensures whole { (result.src ≡ src.entry) × (result.place.at ≡ 0) }
    {
        Elements {
            src,
            place: Place { at: 0 },
        }
    }
}

impl<'a> Iterator for Elements<'a> {
    ghost use Rattle.std.specs.Iterator.{YieldsFirstBy, item_count};
    ghost use Rattle.tlv.specs.Answers.{element_of, elements_left};

    type Item = Element<'a>;

    ghost next_gives = { YieldsFirstBy element_of elements_left };

    ghost remaining = { item_count elements_left };

    #[inline(always)]
    fn next(&mut self) -> Option<Element<'a>> {
        let src = self.src;
        match self.place.element(src) {
            Read::Found {
                typ,
                start,
                end,
                next,
            } => {
                self.place = next;
                Some(Element {
                    typ,
                    inside: &src[start..end],
                })
            }
            Read::End => None,
            Read::Malformed => None,
        }
    }
}

// The integer that `s` is: 1, 2, 4 or 8 bytes, high byte first.
#[tactic(auto, unfolding(crate::specs::Number::integer, crate::specs::Answers::integer_of))]
pub fn integer_of(s: &[u8]) -> Option<u64>
    ensures { result ≡ integer_of s.now }
{
    match s {
        [a] => Some(u64::from(*a)),
        [a, b] => Some(u64::from(u16::from_be_bytes([*a, *b]))),
        [a, b, c, d] => Some(u64::from(u32::from_be_bytes([*a, *b, *c, *d]))),
        [a, b, c, d, e, f, g, h] => Some(u64::from_be_bytes([*a, *b, *c, *d, *e, *f, *g, *h])),
        _ => None,
    }
}

// The inside of the first element of type `typ` in `s`; empty where there is none.
pub fn inside_of(s: &[u8], typ: u32) -> &[u8]
    ensures { result.now ≡ the_inside typ s.now }
{
    for element in Elements::of(s) {
        if element.typ == typ {
            return element.inside;
        }
    }
    &[]
}

// The integer that `s` is; 0 where it has another size.
#[tactic(auto, unfolding(crate::specs::Fields::number_of, crate::specs::Answers::integer_of))]
pub fn number_of(s: &[u8]) -> u64
    ensures { result ≡ number_of s.now }
{
    integer_of(s).unwrap_or(0)
}

// The integer in the first element of type `typ` in `s`; 0 where there is none.
#[tactic(auto, unfolding(crate::specs::Fields::the_integer))]
pub fn number_in(s: &[u8], typ: u32) -> u64
    ensures { result ≡ the_integer typ s.now }
{
    number_of(inside_of(s, typ))
}

// Whether two slices hold the same bytes.
#[inline(always)]
pub fn same_bytes(a: &[u8], b: &[u8]) -> bool
    ensures { result ≡ same_bytes a.now b.now }
{
    a == b
}

// The number at `at`, in its shortest form.
fn number_at(s: &[u8], at: usize) -> Option<Number>
    ensures { result ≡ number_at s.now at }
{
    if s.len() <= at {
        return None;
    }
    let first = s[at];
    let from = at + 1;
    if first < 253 {
        return Some(Number {
            value: u64::from(first),
            next: from,
        });
    }
    let next = from + width_of(first);
    let value = integer_of(s.get(from..next)?)?;
    if value < least_of(first) {
        return None;
    }
    Some(Number { value, next })
}

// How many bytes spell the number after a first byte of 253, 254 or 255.
#[tactic(auto, unfolding(crate::specs::Number::width))]
pub fn width_of(b: u8) -> usize
    ensures { result ≡ width b }
{
    match b {
        253 => 2,
        254 => 4,
        _ => 8,
    }
}

// The least number that needs that many bytes.
#[tactic(auto, unfolding(crate::specs::Number::least))]
fn least_of(b: u8) -> u64
    ensures { result ≡ least b }
{
    match b {
        253 => 253,
        254 => 65536,
        _ => 4294967296,
    }
}
