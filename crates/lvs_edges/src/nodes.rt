// Where the Nodes of a model are, and what they list.
ghost use Rattle.std.specs.Prelude.{◌≡◌};
ghost use Rattle.lvs_edges.specs.Nodes.{Walkable, in_body, BodyFrom, LiesIn, part_of, NodesAt};

use super::Edges;
use crate::body::Body;
use lvs_spec::MAX_NODES;
use lvs_spec::types::{
    NAMED_PATTERN_CNT, NODE, NODE_ID, PATTERN_EDGE, SIGN_CONSTRAINT, VALUE_EDGE,
};
use tlv::{Elements, Place, Read};

/// A model that can be walked, with the body of each Node, by two places: slices would take twice the room, which each call clears and moves.
/// No bytes for a Node that the model does not have.
#[derive(Drop)]
pub struct Nodes<'a> {
    pub model: &'a [u8],
    pub bodies: [Body; MAX_NODES],
    pub ghost read: { NodesAt model.now bodies },
}

impl<'a> Nodes<'a> {
    ghost use Rattle.std.specs.Prelude.{◌≤◌, length};
    ghost use Rattle.tlv.specs.Fields.{the_integer};
    ghost use Rattle.lvs_spec.specs.Limits.{max_model_bytes};
    ghost use Rattle.lvs_spec.specs.Model.{model_of, node_at, edges};
    ghost use Rattle.lvs_spec.specs.Walk.{lists};
    ghost use Rattle.lvs_edges.specs.Nodes.{body_at};
    ghost use Rattle.lvs_edges.specs.Left.{edges_left};

    /// The Nodes of a model. A layer below the public calls: `requires` asks for a model that can be walked, as every accepted one can.
    pub fn of(model: &'a [u8]) -> Nodes<'a>
        requires { Walkable model.now }
        ensures { result.model ≡ model.entry }
    {
        let mut bodies = [Body { start: 0, end: 0 }; MAX_NODES];
        let mut n: usize = 0;
        let mut place = Place { at: 0 };
        // By places, which are what it keeps.
        loop {
            match place.element(model) {
                Read::Found {
                    typ,
                    start,
                    end,
                    next,
                } => {
                    place = next;
                    if typ == NODE {
                        let body = start + body_of(&model[start..end]);
                        bodies[n] = Body {
                            start: body as u32,
                            end: end as u32,
                        };
                        n += 1;
                    }
                }
                Read::End => return Nodes { model, bodies },
                Read::Malformed => return Nodes { model, bodies },
            }
        }
    }

    /// Where a walk begins.
    #[tactic(auto, unfolding(lvs_spec::specs::Model::model_of))]
    pub fn start(&self) -> u64
        ensures { result ≡ (model_of self.now.model.now).start }
    {
        tlv::number_in(self.model, NODE_ID)
    }

    /// How many Tags are named.
    #[tactic(auto, unfolding(lvs_spec::specs::Model::model_of))]
    pub fn named(&self) -> u64
        ensures { result ≡ (model_of self.now.model.now).pattern_count }
    {
        tlv::number_in(self.model, NAMED_PATTERN_CNT)
    }

    fn body(&self, node: u64) -> &'a [u8]
        ensures { result.now ≡ body_at self.now.model.now self.now.bodies node }
    {
        match self.bodies.get(node as usize) {
            Some(body) => part_of(self.model, *body),
            None => &[],
        }
    }

    /// A Node's edges, in the order in which they are tried.
    pub fn edges(&self, node: u64) -> Edges<'a>
        ensures left { edges_left result ≡ edges (node_at (model_of self.now.model.now) node) }
        ensures few { length (edges_left result) ≤ max_model_bytes }
    {
        Edges {
            elements: Elements::of(self.body(node)),
        }
    }

    /// Whether the packet's node lists the key's.
    pub fn lists(&self, node: u64, signer: u64) -> bool
        ensures { result ≡ lists (model_of self.now.model.now) node signer }
    {
        Elements::of(self.body(node)).any(|e| e.typ == SIGN_CONSTRAINT
            && tlv::number_of(e.inside) == signer)
    }
}

// A parameter's fields are known to fit, which an array's element read through a reference is not.
fn part_of(model: &[u8], body: Body) -> &[u8]
    requires { LiesIn model.now body }
    ensures { result.now ≡ part_of model.now body }
{
    &model[body.start as usize..body.end as usize]
}

// What the walk looks for in a Node: edges and signers.
#[tactic(auto, unfolding(crate::specs::Nodes::in_body))]
fn in_body(typ: u32) -> bool
    ensures { result ≡ in_body typ }
{
    typ == VALUE_EDGE || typ == PATTERN_EDGE || typ == SIGN_CONSTRAINT
}

// The place of the first of those in a Node, or a place from which on there are none. It needs a place, which an iteration does not give.
fn body_of(s: &[u8]) -> usize
    ensures { BodyFrom s.now result }
{
    let mut place = Place { at: 0 };
    loop {
        match place.element(s) {
            Read::Found { typ, next, .. } => {
                if in_body(typ) {
                    return place.at;
                }
                place = next;
            }
            Read::End => return place.at,
            Read::Malformed => return place.at,
        }
    }
}
