// What is refused before anything is walked: the verdict on a model, and on a model with two names. Any bytes have an answer.
#![tactic(auto)]

ghost use Rattle.std.specs.Prelude.{◌≡◌};
ghost use Rattle.lvs_spec.specs.Verdict.{verdict};
ghost use Rattle.lvs_verdict.specs.Answers.{verdict_of, InputsOf};

use lvs_names::Row;
use lvs_spec::refusal::{Refusal, Side};

/// The components of two names that were tested with a model.
#[derive(Clone, Copy)]
pub struct Inputs {
    pub packet: Row,
    pub key: Row,
}

/// How many Nodes a model has that is accepted.
pub fn judge_model(model: &[u8]) -> Result<u32, Refusal>
    ensures { verdict_of result ≡ verdict model.now }
{
    lvs_grammar::check_grammar(model)?;
    lvs_rules::check_rules(model)
}

/// Tests the model, then the packet name, then the key name.
pub fn judge_inputs(model: &[u8], packet: &[u8], key: &[u8]) -> Result<Inputs, Refusal>
    ensures { InputsOf model.now packet.now key.now result }
{
    judge_model(model)?;
    let packet = lvs_names::read_name(packet, Side::Packet)?;
    let key = lvs_names::read_name(key, Side::Key)?;
    Ok(Inputs { packet, key })
}
