// The rules that ask something of one number: 5, 6, 7 and 9.
ghost use Rattle.std.specs.Prelude.{◌≡◌};
ghost use Rattle.lvs_spec.specs.Model.{node_of};
ghost use Rattle.lvs_spec.specs.Refusals.{rule_number};
ghost use Rattle.lvs_rules.specs.Broken.{number};
ghost use Rattle.lvs_rules.specs.Lowest.{tag_rule, own_rule, named_rule};

use lvs_spec::refusal::Rule;
use lvs_spec::types::NODE_ID;

// Rule 5: a Tag is 1 to MAX_TAG.
#[tactic(auto, unfolding(crate::specs::Lowest::tag_rule, crate::specs::Lowest::broken, lvs_spec::specs::Verdict::bad_tag))]
pub(crate) fn tag_rule(tag: u64) -> Option<Rule>
    ensures { number result ≡ tag_rule tag }
{
    (tag == 0 || lvs_spec::MAX_TAG < tag).then_some(Rule::TagRange)
}

// Rule 6: a Node's NodeId is its index.
#[tactic(auto, unfolding(crate::specs::Lowest::own_rule, crate::specs::Lowest::broken, lvs_spec::specs::Model::node_of))]
pub(crate) fn own_rule(node: &[u8], i: u32) -> Option<Rule>
    ensures { number result ≡ own_rule i (node_of node.now) }
{
    let id = tlv::number_in(node, NODE_ID);
    (id != u64::from(i)).then_some(Rule::OwnId)
}

// Rules 7 and 9: StartId, or a SignConstraint, names a Node; there are `n`.
#[tactic(auto, unfolding(crate::specs::Lowest::named_rule, crate::specs::Lowest::broken))]
pub(crate) fn named_rule(rule: Rule, index: u64, n: usize) -> Option<Rule>
    ensures { number result ≡ named_rule (rule_number rule) n index }
{
    (n as u64 <= index).then_some(rule)
}
