// What names are walked through. Apart from the functions, since the contracts that name a type must not stand where it is declared.
ghost use Rattle.std.specs.Prelude.{◌≡◌, ◌≤◌, length};
ghost use Rattle.lvs_spec.specs.Limits.{max_name_bytes};
ghost use Rattle.lvs_spec.specs.Model.{model_of};

use crate::nodes::Nodes;
use lvs_bindings::names::Names;

/// A model's Nodes, how many Tags are named, and the two names; the key's is empty where only the packet's is walked.
#[derive(Clone, Copy)]
pub struct Context<'a> {
    pub nodes: &'a Nodes<'a>,
    pub named: u64,
    pub names: Names<'a>,
    pub ghost count: { named ≡ (model_of nodes.now.model.now).pattern_count },
    pub ghost packet_short: { length names.packet.now ≤ max_name_bytes },
    pub ghost key_short: { length names.key.now ≤ max_name_bytes },
}
