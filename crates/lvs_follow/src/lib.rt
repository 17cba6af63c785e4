// Checks the path of an allowed pair (docs/format.md, 8.5), for a device that is not to search: one edge is crossed for each component, and no
// other is looked at but to count. Any bytes have an answer.
#![tactic(auto)]

ghost use Rattle.std.specs.Prelude.{◌≡◌, ◌+◌, length};
ghost use Rattle.tlv.specs.Lists.{is_some};
ghost use Rattle.lvs_spec.specs.Model.{model_of};
ghost use Rattle.lvs_spec.specs.Walk.{follow_pair};
ghost use Rattle.lvs_spec.specs.Answers.{follow_answer};
ghost use Rattle.lvs_spec.specs.Demands.{OnlyNamed};
ghost use Rattle.lvs_names.specs.Rows.{row_from};
ghost use Rattle.lvs_verdict.specs.Answers.{GoodInputs};
ghost use Rattle.lvs_bindings.specs.Slots.{binding_at, bindings_of};
ghost use Rattle.lvs_edges.specs.Crossing.{Ready};
ghost use Rattle.lvs_follow.specs.Answers.{follow_answer_of};
ghost use Rattle.lvs_follow.specs.Following.{Stepped, Led};

use lvs_bindings::Slots;
use lvs_bindings::names::Names;
use lvs_edges::nodes::Nodes;
use lvs_edges::{Context, Crossing, EdgeKind};
use lvs_names::Component;
use lvs_spec::refusal::{Refusal, Side};
use lvs_verdict::Inputs;

// Crosses the edge of a Node with this ordinal, where there is one, with a component, which stands at `at` of the names' text. It asks for the
// kind itself: `lvs_edges::cross` is left to the search, into which the compiler puts it where nobody else calls it.
fn step<'a>(
    context: Context<'a>,
    node: u64,
    ordinal: u16,
    at: usize,
    component: Component<'a>,
    slots: &mut Slots,
) -> Option<Crossing>
    requires { Ready context.named context.names.packet.now context.names.key.now at component.bytes.now slots.old.spans }
    ensures { Stepped (model_of context.entry.nodes.now.model.now) context.entry.names.packet.now context.entry.names.key.now node ordinal
        (binding_at context.entry.names.packet.now context.entry.names.key.now at (length component.entry.bytes.now)) slots.old.spans result
        slots.new.spans }
{
    let edge = context.nodes.edges(node).nth(ordinal as usize)?;
    match edge.kind {
        EdgeKind::Value => lvs_edges::cross_value(edge.inside, component),
        EdgeKind::Pattern => lvs_edges::cross_pattern(
            edge.inside,
            context.named,
            context.names,
            at,
            component,
            slots,
        ),
    }
}

// Follows the words of a path through a name's components from a place on, from the model's start and the bindings in the slots, to a node. There
// the slots hold the bindings at its end.
fn follow_name<'a>(
    context: Context<'a>,
    side: Side,
    from: usize,
    path: &[u16],
    slots: &mut Slots,
) -> Option<u64>
    requires { OnlyNamed context.named (bindings_of context.names.packet.now context.names.key.now slots.old.spans) }
    ensures { Led (model_of context.entry.nodes.now.model.now) context.entry.names.packet.now context.entry.names.key.now side from path.now
        slots.old.spans result slots.new.spans }
{
    let name = context.names.of(side);
    let mut node = context.nodes.start();
    let mut at = from;
    for ordinal in path {
        let component = lvs_names::component_at(name, at)?;
        let text = context.names.place(side, at);
        let crossing = step(context, node, *ordinal, text, component, slots)?;
        node = crossing.node;
        at += component.bytes.len();
    }
    match lvs_names::component_at(name, at) {
        Some(_) => None,
        None => Some(node),
    }
}

// Follows the packet's words of a path and then the key's, and looks at the signers of the packet's node.
fn follow_pair<'a>(nodes: &'a Nodes<'a>, names: Names<'a>, rows: Inputs, path: &[u16]) -> bool
    requires good { GoodInputs nodes.now.model.now names.packet.now names.key.now rows.packet rows.key }
    requires counted { length path.now ≡ rows.packet.count + rows.key.count }
    ensures { result ≡ is_some (follow_pair (model_of nodes.now.model.now) (row_from names.entry.packet.now rows.packet.start)
        (row_from names.entry.key.now rows.key.start) path.now) }
{
    let context = Context {
        nodes,
        named: nodes.named(),
        names,
    };
    let mut slots = Slots::new();
    let n = rows.packet.count;
    let packet = follow_name(
        context,
        Side::Packet,
        rows.packet.start,
        &path[..n],
        &mut slots,
    );
    let Some(packet) = packet else {
        return false;
    };
    let key = follow_name(context, Side::Key, rows.key.start, &path[n..], &mut slots);
    let Some(key) = key else {
        return false;
    };
    nodes.lists(packet, key)
}

/// Whether a path shows that the key name may sign the packet name.
pub fn follow(model: &[u8], packet: &[u8], key: &[u8], path: &[u16]) -> Result<bool, Refusal>
    ensures { follow_answer_of result ≡ follow_answer model.now packet.now key.now path.now }
{
    let rows = lvs_verdict::judge_inputs(model, packet, key)?;
    if path.len() != rows.packet.count + rows.key.count {
        return Ok(false);
    }
    let nodes = Nodes::of(model);
    Ok(follow_pair(&nodes, Names { packet, key }, rows, path))
}
