// The Parent of each Node, by its index; and rule 13.
ghost use Rattle.std.specs.Prelude.{◌≡◌, map, ◌≤◌, ◌<◌, length, take};
ghost use Rattle.lvs_spec.specs.Limits.{max_nodes};
ghost use Rattle.lvs_spec.specs.Model.{node_of};
ghost use Rattle.tlv.specs.Fields.{insides};
ghost use Rattle.lvs_spec.specs.Types as type;
ghost use Rattle.lvs_rules.specs.Broken.{number};
ghost use Rattle.std.proofs.Math.Option.{some};
ghost use Rattle.lvs_rules.specs.Lowest.{parent_from, parent_index, root_rule};

use lvs_spec::refusal::Rule;
use lvs_spec::types::{NODE, PARENT};
use tlv::Elements;

// Each Node's Parent, if it has one, by the Node's index. An array for as many Nodes as a model may have: nothing is allocated.
pub(crate) fn parents_of(model: &[u8]) -> [Option<u32>; lvs_spec::MAX_NODES]
    requires { length (insides type.Node model.now) ≤ max_nodes }
    ensures { take (length (insides type.Node model.now)) result ≡
        map (λ b. parent_index (node_of b)) (insides type.Node model.now) }
{
    let mut parents = [None; lvs_spec::MAX_NODES];
    let mut n = 0;
    for element in Elements::of(model) {
        if element.typ == NODE {
            parents[n] = parent_of(element.inside);
            n += 1;
        }
    }
    parents
}

// The index that a Node names as its Parent, if it names one.
fn parent_of(node: &[u8]) -> Option<u32>
    ensures { result ≡ parent_index (node_of node.now) }
{
    for element in Elements::of(node) {
        if element.typ == PARENT {
            return Some(index_of(tlv::number_of(element.inside)));
        }
    }
    None
}

// No Node's index is near the largest u32, which stands for any that is larger: half the words to clear for each model.
fn index_of(p: u64) -> u32
    ensures { Some result ≡ parent_from (some p) }
{
    p.min(u64::from(u32::MAX)) as u32
}

// Rule 13: the Node that StartId names has no Parent. `i` is the index of the Node at hand.
#[tactic(auto, unfolding(crate::specs::Lowest::root_rule, crate::specs::Lowest::broken))]
pub(crate) fn root_rule(i: u32, start: u64, parents: &[Option<u32>]) -> Option<Rule>
    requires { i < length parents.now }
    ensures { number result ≡ root_rule parents.now i start }
{
    (u64::from(i) == start && parents[i as usize].is_some()).then_some(Rule::Root)
}
