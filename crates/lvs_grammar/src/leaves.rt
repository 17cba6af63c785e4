// Plain bytes that are well formed (docs/format.md, 3.3).
ghost use Rattle.std.specs.Prelude.{◌+◌, ◌≤◌, ◌≡◌, length};
ghost use Rattle.tlv.specs.Number.{integer_size};
ghost use Rattle.tlv.specs.Element.{element};
ghost use Rattle.lvs_spec.specs.Limits.{max_model_bytes};
ghost use Rattle.lvs_spec.specs.Leaves as leaves;
ghost use Rattle.lvs_spec.specs.Places as places;
ghost use Rattle.lvs_grammar.specs.Types.{kind_of, leaf_of};
ghost use Rattle.lvs_grammar.specs.Faults.{fault_of};

use super::faults::{Fault, fault_at, must};
use super::types::{Kind, Leaf};
use tlv::{Place, Read};

// Where an element of plain bytes `s`, in a container of this kind, is at fault: where it starts, at `at`; only a Value holds an element, whose
// faults lie in its inside, which starts at `start`.
#[tactic(auto, unfolding(lvs_spec::specs::Places::leaf_fault, lvs_spec::specs::Leaves::leaf_in))]
pub(crate) fn leaf_fault(
    s: &[u8],
    at: usize,
    start: usize,
    kind: Kind,
    leaf: Leaf,
) -> Result<(), Fault>
    requires { (at ≤ start) × (start + length s.now ≤ max_model_bytes) }
    ensures { fault_of result ≡ places.leaf_fault (kind_of kind) (leaf_of leaf) at start s.now }
{
    match leaf {
        Leaf::Version => must(s.len() == 4, at),
        Leaf::Integer => must(is_integer(s), at),
        Leaf::Value => value_fault(s, start),
        Leaf::Text => must(is_text(s, kind), at),
        Leaf::FunctionId => must(marked(s, b'$'), at),
    }
}

// One name component and nothing after it.
fn value_fault(s: &[u8], start: usize) -> Result<(), Fault>
    requires { start + length s.now ≤ max_model_bytes }
    ensures { fault_of result ≡ places.from start (places.value_fault (element s.now)) }
{
    let first = Place { at: 0 };
    let Read::Found { typ, end, .. } = first.element(s) else {
        return fault_at(start);
    };
    if lvs_spec::MAX_COMPONENT_TYPE < typ {
        return fault_at(start);
    }
    must(end == s.len(), start + end)
}

#[tactic(auto, using(crate::proofs::PlainBytes::sized))]
fn is_integer(s: &[u8]) -> bool
    ensures { result ≡ integer_size (length s.now) }
{
    tlv::integer_of(s).is_some()
}

// A RuleName in a Node, an Identifier elsewhere.
#[tactic(auto, unfolding(lvs_spec::specs::Leaves::text_in))]
fn is_text(s: &[u8], kind: Kind) -> bool
    ensures { result ≡ leaves.text_in (kind_of kind) s.now }
{
    match kind {
        Kind::Node => marked(s, b'#'),
        _ => is_identifier(s),
    }
}

// A mark and an identifier.
fn marked(s: &[u8], mark: u8) -> bool
    ensures { result ≡ leaves.marked mark s.now }
{
    match s {
        [first, rest @ ..] => *first == mark && is_identifier(rest),
        [] => false,
    }
}

// A letter or `_`, then letters, digits or `_`.
fn is_identifier(s: &[u8]) -> bool
    ensures { result ≡ leaves.identifier s.now }
{
    match s {
        [first, rest @ ..] => is_letter(*first) && rest.iter().all(|b| is_letter_or_digit(*b)),
        [] => false,
    }
}

#[tactic(auto, unfolding(lvs_spec::specs::Leaves::letter))]
fn is_letter(b: u8) -> bool
    ensures { result ≡ leaves.letter b }
{
    b.is_ascii_alphabetic() || b == b'_'
}

#[tactic(auto, unfolding(lvs_spec::specs::Leaves::letter, lvs_spec::specs::Leaves::letter_or_digit))]
fn is_letter_or_digit(b: u8) -> bool
    ensures { result ≡ leaves.letter_or_digit b }
{
    b.is_ascii_alphanumeric() || b == b'_'
}
