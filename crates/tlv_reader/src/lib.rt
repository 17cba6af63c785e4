// The element reader that keeps hold of the bytes and of its place in them. Any bytes and any place have an answer.
// Each method leaves the work to a function on the slice and the place.
#![tactic(auto)]

ghost use Rattle.std.specs.Prelude.{◌≡◌};
ghost use Rattle.tlv.specs.Answers.{read_at};
ghost use Rattle.tlv_reader.specs.Methods.{place_after, moved, inside_at};
ghost use Rattle.tlv_reader.specs.Count.{count_of};

use tlv::{Place, Read};

// The bytes, and a place in them.
#[derive(Drop)]
pub struct Reader<'a> {
    pub src: &'a [u8],
    pub at: usize,
}

impl<'a> Reader<'a> {
    pub fn new(src: &'a [u8], at: usize) -> Reader<'a>
        ensures { (result.src ≡ src.entry) × (result.at ≡ at) }
    {
        Reader { src, at }
    }

    // The element at the place. The reader moves past it, and stays where none stands.
    pub fn next(&mut self) -> Read
        ensures { (result ≡ read_at self.old.src.now self.old.at) × (self.new ≡ moved self.old) }
    {
        let at = self.at;
        let read = element_at(self.src, at);
        self.at = place_after(read, at);
        read
    }

    // A reader of the inside of the element at the place, from its start; of no bytes where none stands.
    pub fn inside(self) -> Reader<'a>
        ensures { (result.src.now ≡ inside_at self.entry.src.now self.entry.at) × (result.at ≡ 0) }
    {
        Reader {
            src: inside_at(self.src, self.at),
            at: 0,
        }
    }
}

// The element at a place.
pub fn element_from(s: &[u8], at: usize) -> Read
    ensures { result ≡ read_at s.now at }
{
    let mut reader = Reader::new(s, at);
    reader.next()
}

// The inside of the element at a place; no bytes where none stands.
pub fn inside_from<'a>(s: &'a [u8], at: usize) -> &'a [u8]
    ensures { result.now ≡ inside_at s.now at }
{
    let reader = Reader::new(s, at).inside();
    reader.src
}

// How many elements of type `typ` the bytes are made of, where they are elements and nothing else. An inside is not looked into. It tells the end
// from what is malformed, which an iteration does not.
pub fn count_of_type(s: &[u8], typ: u32) -> Option<usize>
    ensures { result ≡ count_of typ s.now }
{
    let mut at = 0;
    let mut n = 0;
    loop {
        match element_from(s, at) {
            Read::Found { typ: t, next, .. } => {
                at = next.at;
                if t == typ {
                    n += 1;
                }
            }
            Read::End => return Some(n),
            Read::Malformed => return None,
        }
    }
}

// The covered functions that the methods call.
fn element_at(src: &[u8], at: usize) -> Read
    ensures { result ≡ read_at src.now at }
{
    Place { at }.element(src)
}

// The place after what was read at `at`.
#[tactic(auto, unfolding(crate::specs::Methods::place_after))]
fn place_after(read: Read, at: usize) -> usize
    ensures { result ≡ place_after read at }
{
    match read {
        Read::Found { next, .. } => next.at,
        Read::End => at,
        Read::Malformed => at,
    }
}

fn inside_at<'a>(src: &'a [u8], at: usize) -> &'a [u8]
    ensures { result.now ≡ inside_at src.now at }
{
    match element_at(src, at) {
        Read::Found { start, end, .. } => &src[start..end],
        Read::End => &src[..0],
        Read::Malformed => &src[..0],
    }
}
