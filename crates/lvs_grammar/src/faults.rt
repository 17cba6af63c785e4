// Where the inside of a container is malformed first (docs/format.md, 5.3). Places are counted from its start.
ghost use Rattle.std.specs.Prelude.{◌+◌, IfErr, suc, ◌≤◌, ◌≡◌, length};
ghost use Rattle.std.proofs.Math.Option.{some};
ghost use Rattle.lvs_spec.specs.Limits.{max_model_bytes};
ghost use Rattle.lvs_spec.specs.Places as places;
ghost use Rattle.lvs_grammar.specs.Types.{kind_of};
ghost use Rattle.lvs_grammar.specs.Faults.{fault_of};

use super::leaves::leaf_fault;
use super::order::{may_end, next_state};
use super::types::{Kind, Known, Meaning, meaning_of};
use tlv::{Place, Read};

/// Where bytes are malformed first.
#[derive(Clone, Copy, Debug, PartialEq, Eq)]
pub struct Fault {
    pub place: u32,
}

// A test that must pass, and the place of the fault if it fails.
pub(crate) fn must(ok: bool, place: usize) -> Result<(), Fault>
    requires { place ≤ max_model_bytes }
    ensures { fault_of result ≡ places.must ok place }
{
    if ok { Ok(()) } else { fault_at(place) }
}

pub(crate) fn fault_at(place: usize) -> Result<(), Fault>
    requires { place ≤ max_model_bytes }
    ensures { fault_of result ≡ some place }
{
    Err(Fault {
        place: place as u32,
    })
}

// A place in an inside, counted from where that starts, from further out.
#[inline(always)]
fn counted_from(start: usize, found: Result<(), Fault>) -> Result<(), Fault>
    requires { IfErr found (λ fault. start + fault.place ≤ max_model_bytes) }
    ensures { fault_of result ≡ places.from start (fault_of found) }
{
    match found {
        Ok(()) => Ok(()),
        Err(fault) => fault_at(start + fault.place as usize),
    }
}

// Whether there is no fault in the whole inside of a container of this kind, read to at most this depth; else the first.
#[cycle(fault_in_first_fault)]
pub(crate) fn fault_in(s: &[u8], kind: Kind, depth: u8) -> Result<(), Fault>
    requires { length s.now ≤ max_model_bytes }
    ensures { fault_of result ≡ places.fault_by depth (kind_of kind) s.now }
{
    if depth == 0 {
        return fault_at(0);
    }
    first_fault(s, kind, depth - 1)
}

// The same, where the containers in it are read to at most the depth `below`. Plain elements and containers are told apart here and not in a
// function of its own, because that takes fewer instructions. The loop needs the elements' places, and the end of the bytes told from bytes that no
// element begins with, which an iterator does not give.
#[cycle(fault_in_first_fault)]
fn first_fault(s: &[u8], kind: Kind, below: u8) -> Result<(), Fault>
    requires { length s.now ≤ max_model_bytes }
    ensures { fault_of result ≡ places.fault_by (suc below) (kind_of kind) s.now }
{
    let mut place = Place { at: 0 };
    let mut state: u8 = 0;
    loop {
        let at = place.at;
        match place.element(s) {
            Read::End => return must(may_end(kind, state), at),
            Read::Malformed => return fault_at(at),
            Read::Found {
                typ,
                start,
                end,
                next,
            } => {
                place = next;
                match meaning_of(typ) {
                    Meaning::Optional => {}
                    Meaning::Critical => return fault_at(at),
                    Meaning::Known(known) => {
                        let Some(after) = next_state(kind, state, typ) else {
                            return fault_at(at);
                        };
                        state = after;
                        let inside = &s[start..end];
                        match known {
                            Known::Plain(leaf) => leaf_fault(inside, at, start, kind, leaf)?,
                            Known::Container(inner) => counted_from(
                                start,
                                fault_in(inside, inner, below),
                            )?,
                        }
                    }
                }
            }
        }
    }
}
