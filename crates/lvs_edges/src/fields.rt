// The fields of an edge. A plain edge's fields are read by their places, and any other edge is searched for them.
ghost use Rattle.std.specs.Prelude.{◌≡◌, true};
ghost use Rattle.tlv.specs.Fields.{the_inside, the_integer};
ghost use Rattle.lvs_spec.specs.Types as type;
ghost use Rattle.lvs_edges.specs.Plain.{PlainNode, PlainValue, PlainPattern, FieldsOf};

use lvs_spec::types::{NODE_ID, TAG, VALUE};

// What a PatternEdge leads to and binds, and where in it the Constraints are from.
#[derive(Clone, Copy)]
pub struct PatternFields {
    pub dest: u64,
    pub tag: u64,
    pub rest: usize,
}

// Where an edge leads.
pub fn destination(s: &[u8]) -> u64
    ensures { result ≡ the_integer type.NodeId s.now }
{
    if plain_node(s) {
        return s[2] as u64;
    }
    tlv::number_in(s, NODE_ID)
}

// What the Value of a ValueEdge holds.
#[inline]
pub fn value_of(s: &[u8]) -> &[u8]
    ensures { result.now ≡ the_inside type.Value s.now }
{
    if plain_value(s) {
        return &s[5..];
    }
    tlv::inside_of(s, VALUE)
}

// Where a PatternEdge leads, what it binds, and where its Constraints are.
pub fn pattern_fields(s: &[u8]) -> PatternFields
    ensures { FieldsOf s.now result }
{
    if plain_pattern(s) {
        return PatternFields {
            dest: s[2] as u64,
            tag: s[5] as u64,
            rest: 6,
        };
    }
    PatternFields {
        dest: tlv::number_in(s, NODE_ID),
        tag: tlv::number_in(s, TAG),
        rest: 0,
    }
}

// Whether an edge begins with a NodeId of one byte, as nearly all do; it is free to say no.
fn plain_node(s: &[u8]) -> bool
    ensures { result ≡ true → PlainNode s.now }
{
    if s.len() < 3 {
        return false;
    }
    if s[0] as u32 != NODE_ID {
        return false;
    }
    s[1] == 1
}

// Whether a ValueEdge is such a NodeId and a Value, as nearly all are; it is free to say no. The length is tested first: the walk takes 2 percent less so.
fn plain_value(s: &[u8]) -> bool
    ensures { result ≡ true → PlainValue s.now }
{
    if s.len() < 5 {
        return false;
    }
    if 257 < s.len() {
        return false;
    }
    if !plain_node(s) {
        return false;
    }
    if s[3] as u32 != VALUE {
        return false;
    }
    s[4] as usize == s.len() - 5
}

// Whether a PatternEdge begins with such a NodeId and a Tag of one byte, as nearly all do; it is free to say no.
fn plain_pattern(s: &[u8]) -> bool
    ensures { result ≡ true → PlainPattern s.now }
{
    if s.len() < 6 {
        return false;
    }
    if !plain_node(s) {
        return false;
    }
    if s[3] as u32 != TAG {
        return false;
    }
    s[4] == 1
}
