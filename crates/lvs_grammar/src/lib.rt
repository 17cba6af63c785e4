// Refusals 1 to 3 (docs/format.md, 5): whether a model is too long, of another version, malformed, or readable.
#![tactic(auto)]

mod faults;
mod leaves;
mod order;
mod types;

ghost use Rattle.std.specs.Prelude.{◌≡◌};
ghost use Rattle.lvs_spec.specs.WellFormed.{is_other_version, other_version};
ghost use Rattle.tlv.specs.Answers.{element_of};
ghost use Rattle.lvs_grammar.specs.Answers.{reading_of};

use faults::fault_in;
use lvs_spec::MAX_MODEL_BYTES;
use lvs_spec::refusal::Refusal;
use lvs_spec::types::VERSION;
use tlv::{Element, Elements};
use types::{Kind, is_optional};

// The only version that is read: 0x00011000.
const THIS_VERSION: [u8; 4] = [0x00, 0x01, 0x10, 0x00];
// Model, Node, PatternEdge, Constraint, ConstraintOption, UserFnCall, UserFnArg: no deeper.
const DEPTH: u8 = 7;

/// Whether the bytes are a model that can be read; a malformed one has the place of its first fault. Each test covers the whole model before the
/// next begins, save that another version outranks any fault after Version.
pub fn check_grammar(model: &[u8]) -> Result<(), Refusal>
    ensures { result ≡ reading_of model.now }
{
    if MAX_MODEL_BYTES < model.len() {
        return Err(Refusal::TooLong);
    }
    if other_version(model) {
        return Err(Refusal::OtherVersion);
    }
    match fault_in(model, Kind::Model, DEPTH) {
        Ok(()) => Ok(()),
        Err(fault) => Err(Refusal::Malformed { place: fault.place }),
    }
}

// Whether the first element that is not optional is a Version of 4 bytes, but not this one.
fn other_version(model: &[u8]) -> bool
    ensures { result ≡ other_version model.now }
{
    for element in Elements::of(model) {
        if !is_optional(element.typ) {
            return is_other_version(element);
        }
    }
    false
}

#[tactic(auto, using(tlv::proofs::Bytes::same_pointwise), unfolding(lvs_spec::specs::WellFormed::is_other_version))]
fn is_other_version(element: Element) -> bool
    ensures { result ≡ is_other_version (element_of element.entry) }
{
    element.typ == VERSION && element.inside.len() == 4 && element.inside != THIS_VERSION.as_slice()
}
