// A Node's edges, and crossing one with a component. Below the search, so that whoever follows a given path needs no search.
//
// `named` is NamedPatternCnt: a Tag above it is temporary, and has no binding. The component that is to pass stands at `at` of the names' text.
//
// A layer below the public calls: `requires` asks for such a component, for slots in which only named Tags are bound and, in `nodes`, for a model
// that can be walked; the search and the follower have made them. Edges may be any bytes.
//
// What crosses an edge is a part of the walk's loop (`inline(always)`): as calls these would copy names and component for each edge that is tried.
#![tactic(auto)]

mod body;
mod context;
mod fields;
pub mod nodes;

ghost use Rattle.std.specs.Prelude.{◌≡◌, ◌≤◌, length};
ghost use Rattle.lvs_bindings.specs.Slots.{binding_at};
ghost use Rattle.lvs_edges.specs.Edges.{edge_of};
ghost use Rattle.lvs_edges.specs.declared.EdgeKind.TheVariants as kind;
ghost use Rattle.lvs_edges.specs.Crossing.{Ready, named_slot, same_as, Passed, Crossed, CrossedValue};

pub use body::Body;
pub use context::Context;
pub use fields::{PatternFields, destination, pattern_fields, value_of};
use lvs_bindings::names::Names;
use lvs_bindings::{Slots, Span};
use lvs_constraints::Trial;
use lvs_names::Component;
use lvs_spec::types::{PATTERN_EDGE, VALUE_EDGE};
use tlv::Elements;

#[derive(Clone, Copy, Debug, PartialEq, Eq)]
pub enum EdgeKind {
    Value,
    Pattern,
}

/// An edge, by its inside.
#[derive(Clone, Copy)]
pub struct Edge<'a> {
    pub kind: EdgeKind,
    pub inside: &'a [u8],
}

/// The edges among a Node's elements, in file order.
#[derive(Clone, Copy)]
pub struct Edges<'a> {
    pub elements: Elements<'a>,
}

/// The Node that an edge led to, and the Tag that it has bound.
#[derive(Clone, Copy)]
pub struct Crossing {
    pub node: u64,
    pub bound: Option<u64>,
}

impl<'a> Iterator for Edges<'a> {
    ghost use Rattle.std.specs.Iterator.{YieldsFirstBy, item_count};
    ghost use Rattle.lvs_edges.specs.Left.{edge_is, edges_left};

    type Item = Edge<'a>;

    ghost next_gives = { YieldsFirstBy edge_is edges_left };

    ghost remaining = { item_count edges_left };

    #[inline(always)]
    fn next(&mut self) -> Option<Edge<'a>> {
        while let Some(e) = self.elements.next() {
            if e.typ == VALUE_EDGE {
                return Some(Edge {
                    kind: EdgeKind::Value,
                    inside: e.inside,
                });
            }
            if e.typ == PATTERN_EDGE {
                return Some(Edge {
                    kind: EdgeKind::Pattern,
                    inside: e.inside,
                });
            }
        }
        None
    }
}

/// Crosses an edge, where it can be crossed.
#[inline(always)]
pub fn cross<'a>(
    edge: Edge<'a>,
    named: u64,
    names: Names<'a>,
    at: usize,
    component: Component<'a>,
    slots: &mut Slots,
) -> Option<Crossing>
    requires { Ready named names.packet.now names.key.now at component.bytes.now slots.old.spans }
    ensures { Crossed named names.entry.packet.now names.entry.key.now (edge_of edge.entry.kind edge.entry.inside.now)
        (binding_at names.entry.packet.now names.entry.key.now at (length component.entry.bytes.now)) slots.old.spans result slots.new.spans }
{
    match edge.kind {
        EdgeKind::Value => cross_value(edge.inside, component),
        EdgeKind::Pattern => cross_pattern(edge.inside, named, names, at, component, slots),
    }
}

/// Crosses a ValueEdge. Where it leads is read only when the component passes.
#[inline(always)]
pub fn cross_value(s: &[u8], component: Component) -> Option<Crossing>
    ensures { CrossedValue s.now component.entry.bytes.now result }
{
    if !lvs_names::compare(value_of(s), component).equal {
        return None;
    }
    Some(Crossing {
        node: destination(s),
        bound: None,
    })
}

/// Crosses a PatternEdge: a bound Tag is compared, and an unbound one is bound. Constraints are tested before that; for a temporary Tag they are
/// all there is to test.
#[inline(always)]
pub fn cross_pattern<'a>(
    s: &'a [u8],
    named: u64,
    names: Names<'a>,
    at: usize,
    component: Component<'a>,
    slots: &mut Slots,
) -> Option<Crossing>
    requires { Ready named names.packet.now names.key.now at component.bytes.now slots.old.spans }
    ensures { Crossed named names.entry.packet.now names.entry.key.now (edge_of kind.Pattern s.now)
        (binding_at names.entry.packet.now names.entry.key.now at (length component.entry.bytes.now)) slots.old.spans result slots.new.spans }
{
    let fields = pattern_fields(s);
    let node = fields.dest;
    let tag = fields.tag;
    let bound = named_slot(slots, named, tag);
    if !passes(s, fields.rest, bound, names, component, slots) {
        return None;
    }
    if bound.is_some() {
        return Some(Crossing { node, bound: None });
    }
    if named < tag {
        return Some(Crossing { node, bound: None });
    }
    let start = at as u32;
    let size = component.bytes.len() as u32;
    let bound = slots.bind(tag, Span { start, size });
    Some(Crossing { node, bound })
}

// What a Tag is bound to; a temporary one to nothing.
#[tactic(auto, unfolding(crate::specs::Crossing::named_slot))]
#[inline(always)]
fn named_slot(slots: &Slots, named: u64, tag: u64) -> Option<Span>
    ensures { result ≡ named_slot named tag slots.now.spans }
{
    if tag <= named { slots.get(tag) } else { None }
}

// Whether a component passes a PatternEdge whose Tag is bound so, and whose Constraints are from `rest` on. Most edges have none.
#[inline(always)]
fn passes<'a>(
    s: &'a [u8],
    rest: usize,
    bound: Option<Span>,
    names: Names<'a>,
    component: Component<'a>,
    slots: &Slots,
) -> bool
    requires { rest ≤ length s.now }
    ensures { Passed names.entry.packet.now names.entry.key.now s.now rest bound component.entry.bytes.now slots.now.spans result }
{
    if !same_as(bound, names, component) {
        return false;
    }
    if rest == s.len() {
        return true;
    }
    let trial = Trial {
        names,
        slots,
        component,
    };
    trial.constraints_hold(&s[rest..])
}

// Whether a component is the one that a Tag is bound to, if it is bound.
#[inline(always)]
fn same_as<'a>(bound: Option<Span>, names: Names<'a>, component: Component<'a>) -> bool
    ensures { result ≡ same_as names.entry.packet.now names.entry.key.now bound component.entry.bytes.now }
{
    match bound {
        None => true,
        Some(span) => lvs_names::compare(names.text_from(span.start as usize), component).equal,
    }
}
