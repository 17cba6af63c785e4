// The calls that search: matching, signing and suggesting, on slices. Any bytes have an answer, and no call relies on an earlier one.
#![tactic(auto)]

mod found;

ghost use Rattle.std.specs.Prelude.{◌≡◌};
ghost use Rattle.lvs_spec.specs.Answers.{match_outcome, sign_outcome};
ghost use Rattle.lvs_spec.specs.Certificates.{suggest_answer};
ghost use Rattle.lvs.specs.Answers.{match_answer_of, sign_answer_of, suggest_answer_of};

pub use found::Match;
use lvs_bindings::Slots;
use lvs_bindings::names::Names;
use lvs_edges::nodes::Nodes;
use lvs_spec::refusal::{Refusal, Side};
pub use lvs_walk::Pair;

/// Matches a packet name. On a match the first 384 words of the buffer are each Tag's start, length and origin; else it is kept.
pub fn match_name(model: &[u8], name: &[u8], buffer: &mut [u32]) -> Result<Option<Match>, Refusal>
    ensures { record { answer = match_answer_of result; words = buffer.new } ≡
        match_outcome model.now name.now buffer.old }
{
    lvs_verdict::judge_model(model)?;
    let row = lvs_names::read_name(name, Side::Packet)?;
    if buffer.len() < lvs_spec::BINDING_WORDS {
        return Err(Refusal::ShortWords);
    }
    let nodes = Nodes::of(model);
    let mut slots = Slots::new();
    let Some(node) = lvs_walk::find_match(&nodes, name, row.start, &mut slots) else {
        return Ok(None);
    };
    let bound = slots.write_words(name, buffer);
    Ok(Some(Match { node, bound }))
}

/// The first pair of a packet match and a key match that may sign it. If there is one, the first 384 words are each Tag's start, length and
/// origin, and the path begins with the ordinals of the edges crossed, the packet's and then the key's; else both are kept.
pub fn sign(
    model: &[u8],
    packet: &[u8],
    key: &[u8],
    words: &mut [u32],
    path: &mut [u16],
) -> Result<Option<Pair>, Refusal>
    ensures { record { answer = sign_answer_of result; buffers = record { words = words.new; path = path.new } } ≡
        sign_outcome model.now packet.now key.now (record { words = words.old; path = path.old }) }
{
    let rows = lvs_verdict::judge_inputs(model, packet, key)?;
    if words.len() < lvs_spec::BINDING_WORDS {
        return Err(Refusal::ShortWords);
    }
    if path.len() < rows.packet.count + rows.key.count {
        return Err(Refusal::ShortPath);
    }
    let nodes = Nodes::of(model);
    let names = Names { packet, key };
    let mut slots = Slots::new();
    let (from, key_from) = (rows.packet.start, rows.key.start);
    match lvs_walk::find_pair(&nodes, names, from, key_from, &mut slots, path) {
        None => Ok(None),
        Some(pair) => {
            slots.write_words(packet, words);
            Ok(Some(pair))
        }
    }
}

/// Which certificate of a list may sign a packet name: the index of the first that `sign` would allow as the key name. The model is judged and its
/// Nodes are found once for all of them.
pub fn suggest(model: &[u8], packet: &[u8], list: &[u8]) -> Result<Option<u32>, Refusal>
    ensures { suggest_answer_of result ≡ suggest_answer model.now packet.now list.now }
{
    lvs_verdict::judge_model(model)?;
    let row = lvs_names::read_name(packet, Side::Packet)?;
    lvs_certificates::read_list(list)?;
    let nodes = Nodes::of(model);
    match lvs_certificates::first_allowed(&nodes, packet, row.start, list) {
        Some(index) => Ok(Some(index as u32)),
        None => Ok(None),
    }
}
