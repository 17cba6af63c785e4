// The parts of a description that hold no row of others.
ghost use Rattle.std.specs.Prelude.{◌≡◌, length};
ghost use Rattle.lvs_spec.specs.Types as type;
ghost use Rattle.lvs_spec.specs.Model.{component_of, argument_of, value_edge_of, symbol_of};
ghost use Rattle.lvs_description.specs.Format.{put, component};
ghost use Rattle.lvs_description.specs.Description.{argument, value_edge, symbol};
ghost use Rattle.lvs_describe.specs.Parts.{shown};
ghost use Rattle.lvs_describe.specs.Lent.{Describes};
ghost use Rattle.lvs_describe.specs.Sorts.{own, items_of};
ghost use Rattle.lvs_describe.specs.declared.rows.Sort.TheVariants as sort;

use crate::output::Output;
use lvs_names::read_component;
use lvs_spec::types::{IDENTIFIER, NODE_ID, PARENT, TAG, VALUE};
use tlv::Elements;

// What a Node says of itself: its id; 0, or 1 and its Parent. `parents` is how many Parents it has.
pub(crate) fn put_own(node: &[u8], parents: usize, out: &mut Output<'_>) -> Option<()>
    requires { parents ≡ length (items_of sort.Parent node.now) }
    ensures { Describes (own node.now) out.old out.new result }
{
    let id = tlv::number_in(node, NODE_ID);
    if parents < 1 {
        return out.pair(id, 0);
    }
    out.number(id)?;
    out.pair(1, tlv::number_in(node, PARENT))
}

pub(crate) fn put_value_edge(b: &[u8], out: &mut Output<'_>) -> Option<()>
    ensures { Describes (shown value_edge (value_edge_of b.now)) out.old out.new result }
{
    let destination = lvs_edges::destination(b);
    put_component(destination, lvs_edges::value_of(b), out)
}

pub(crate) fn put_symbol(b: &[u8], out: &mut Output<'_>) -> Option<()>
    ensures { Describes (shown symbol (symbol_of b.now)) out.old out.new result }
{
    let tag = tlv::number_in(b, TAG);
    out.numbered(tag, tlv::inside_of(b, IDENTIFIER))
}

// The first Value or Tag of an argument; one with neither counts as Tag 0.
pub(crate) fn put_argument(b: &[u8], out: &mut Output<'_>) -> Option<()>
    ensures { Describes (shown argument (argument_of b.now)) out.old out.new result }
{
    for element in Elements::of(b) {
        if element.typ == VALUE {
            return put_component(0, element.inside, out);
        }
        if element.typ == TAG {
            return out.pair(1, tlv::number_of(element.inside));
        }
    }
    out.pair(1, 0)
}

// The component in a Value, its type and its text, behind a number.
pub(crate) fn put_component(n: u64, value: &[u8], out: &mut Output<'_>) -> Option<()>
    ensures { Describes (put n (shown (component type.Value) (component_of value.now))) out.old out.new result }
{
    let held = read_component(value);
    out.number(n)?;
    out.numbered(held.typ as u64, &value[held.start..held.end])
}
