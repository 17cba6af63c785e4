// The rules on where the edges of a Node lead: 8, 11 and 14, in one pass over the edges.
ghost use Rattle.std.specs.Prelude.{◌≡◌, ◌≤◌, ◌<◌, length};
ghost use Rattle.lvs_spec.specs.Limits.{max_nodes};
ghost use Rattle.lvs_spec.specs.Model.{node_of};
ghost use Rattle.lvs_spec.specs.Verdict.{destinations};
ghost use Rattle.lvs_rules.specs.Broken.{number};
ghost use Rattle.lvs_rules.specs.Lowest.{destination_rule, destinations_rule, Noted};

use crate::broken::lower;
use lvs_spec::refusal::Rule;
use lvs_spec::types::{NODE_ID, PATTERN_EDGE, VALUE_EDGE};
use tlv::Elements;

// The lowest of these rules that the edges of the Node with index `i` break. `seen` has room for each Node of a model: nothing is allocated.
pub(crate) fn destinations_rule(node: &[u8], i: u32, parents: &[Option<u32>]) -> Option<Rule>
    requires { length parents.now ≤ max_nodes }
    ensures { number result ≡ destinations_rule parents.now i (destinations (node_of node.now)) }
{
    let mut seen = [false; lvs_spec::MAX_NODES];
    let mut rule = None;
    for element in Elements::of(node) {
        if element.typ == VALUE_EDGE || element.typ == PATTERN_EDGE {
            let d = tlv::number_in(element.inside, NODE_ID);
            let own = destination_rule(d, i, parents);
            rule = lower(rule, lower(own, parallel_rule(&mut seen, d)));
        }
    }
    rule
}

// Rules 8 and 11: a destination names a Node, whose Parent is the Node with index `i`.
#[tactic(auto, unfolding(crate::specs::Lowest::destination_rule, crate::specs::Lowest::broken))]
fn destination_rule(d: u64, i: u32, parents: &[Option<u32>]) -> Option<Rule>
    ensures { number result ≡ destination_rule parents.now i d }
{
    if parents.len() as u64 <= d {
        return Some(Rule::Destination);
    }
    (parents[d as usize] != Some(i)).then_some(Rule::Parent)
}

// Rule 14: no edge before leads there, so that no two of a Node are parallel. `seen` says where those before lead.
#[tactic(auto, unfolding(crate::specs::Lowest::broken))]
fn parallel_rule(seen: &mut [bool; lvs_spec::MAX_NODES], d: u64) -> Option<Rule>
    requires { length seen.old ≡ max_nodes }
    ensures { Noted seen.old d (number result) seen.new }
{
    if lvs_spec::MAX_NODES as u64 <= d {
        return None;
    }
    let at = d as usize;
    let again = seen[at];
    seen[at] = true;
    again.then_some(Rule::Parallel)
}
