// Rules 4 to 14 of the verdict: the table `rules` of lvs_spec. The top level is read four times: the Nodes are counted, their Parents read into
// an array, each Node and all that it holds is tested, keeping the lowest rule broken and the first Node that breaks it, and the TagSymbols.
// Any bytes have an answer: the definitions are total.
#![tactic(auto)]

mod broken;
mod destinations;
mod numbers;
mod options;
mod parents;
mod patterns;
mod sweeps;

ghost use Rattle.std.specs.Prelude.{◌≡◌, ◌≤◌, ◌<◌, length};
ghost use Rattle.lvs_spec.specs.Limits.{max_nodes};
ghost use Rattle.lvs_spec.specs.Model.{model_of, node_of};
ghost use Rattle.tlv.specs.Fields.{insides};
ghost use Rattle.lvs_spec.specs.Types as type;
ghost use Rattle.lvs_spec.specs.Verdict.{judge};
ghost use Rattle.lvs_rules.specs.Broken.{number};
ghost use Rattle.lvs_rules.specs.Lowest.{node_rule};
ghost use Rattle.lvs_rules.specs.Faults.{earlier, lowest, verdict_of, fault_of, judged_of};

use broken::{is_lower, lower};
use destinations::destinations_rule;
use lvs_spec::refusal::{Refusal, Rule};
use lvs_spec::types::{NODE, NODE_ID, PATTERN_EDGE, SIGN_CONSTRAINT, TAG, TAG_SYMBOL};
use numbers::{named_rule, own_rule, tag_rule};
use options::count_of;
use parents::{parents_of, root_rule};
use patterns::pattern_edge_rule;
use sweeps::sweep;
use tlv::Elements;

// A rule that is broken, and the index of the first Node that breaks it.
#[derive(Clone, Copy)]
struct Fault {
    rule: Option<Rule>,
    node: u32,
}

/// How many Nodes a model has that breaks none of these rules.
pub fn check_rules(model: &[u8]) -> Result<u32, Refusal>
    ensures { judged_of result ≡ judge (model_of model.now) }
{
    let n = count_of(model, NODE);
    if lvs_spec::MAX_NODES < n {
        let rule = Rule::ManyNodes;
        return Err(Refusal::Rule { rule, node: 0 });
    }
    let all = parents_of(model);
    let parents = &all[..n];
    let start = tlv::number_in(model, NODE_ID);
    let fault = lowest_fault(model, start, parents);
    let symbols = sweep(model, TAG_SYMBOL, |b| tag_rule(tlv::number_in(b, TAG)));
    conclude(
        fault,
        lower(symbols, named_rule(Rule::StartId, start, n)),
        n as u32,
    )
}

// Of `fault`, in the Nodes, and `whole`, outside of them, the lower rule decides. A Tag's fault, and any outside of the Nodes, names no Node.
#[tactic(auto, unfolding(crate::specs::Faults::verdict_of, crate::specs::Faults::named))]
fn conclude(fault: Fault, whole: Option<Rule>, nodes: u32) -> Result<u32, Refusal>
    ensures { judged_of result ≡ verdict_of (fault_of fault) (number whole) nodes }
{
    match lower(fault.rule, whole) {
        None => Ok(nodes),
        Some(rule) => {
            let named = !is_lower(whole, fault.rule) && rule != Rule::TagRange;
            Err(Refusal::Rule {
                rule,
                node: if named { fault.node } else { 0 },
            })
        }
    }
}

// The lowest rule that a Node breaks, with the first Node that breaks it.
fn lowest_fault(model: &[u8], start: u64, parents: &[Option<u32>]) -> Fault
    requires { (length (insides type.Node model.now) ≤ max_nodes) × (length parents.now ≡ length (insides type.Node model.now)) }
    ensures { fault_of result ≡
        lowest (λ i b. node_rule start parents.now i (node_of b)) (insides type.Node model.now) }
{
    let mut fault = Fault {
        rule: None,
        node: 0,
    };
    let mut i: u32 = 0;
    for element in Elements::of(model) {
        if element.typ == NODE {
            let rule = node_rule(element.inside, i, start, parents);
            fault = earlier(fault, Fault { rule, node: i });
            i += 1;
        }
    }
    fault
}

#[tactic(auto, unfolding(crate::specs::Faults::earlier))]
fn earlier(a: Fault, b: Fault) -> Fault
    ensures { fault_of result ≡ earlier (fault_of a) (fault_of b) }
{
    if is_lower(b.rule, a.rule) { b } else { a }
}

// The lowest rule that the Node with index `i` breaks.
fn node_rule(node: &[u8], i: u32, start: u64, parents: &[Option<u32>]) -> Option<Rule>
    requires { (length parents.now ≤ max_nodes) × (i < length parents.now) }
    ensures { number result ≡ node_rule start parents.now i (node_of node.now) }
{
    let n = parents.len();
    let own = lower(own_rule(node, i), root_rule(i, start, parents));
    let edges = destinations_rule(node, i, parents);
    let patterns = sweep(node, PATTERN_EDGE, pattern_edge_rule);
    let signers = sweep(
        node,
        SIGN_CONSTRAINT,
        |b| named_rule(Rule::Signer, tlv::number_of(b), n),
    );
    lower(own, lower(edges, lower(patterns, signers)))
}
