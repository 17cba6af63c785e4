// The order inside each container (docs/format.md, 3.4). A state counts the items of the order that are done with.
ghost use Rattle.std.specs.Prelude.{◌≡◌, drop};
ghost use Rattle.lvs_spec.specs.Grammar.{order, step, final};
ghost use Rattle.lvs_grammar.specs.Types.{kind_of};
ghost use Rattle.lvs_grammar.specs.States.{left_behind, Slotted};

use super::types::Kind;
use lvs_spec::types;

// The state after an element that may stand in the states from lo to hi.
fn slot(state: u8, lo: u8, hi: u8, next: u8) -> Option<u8>
    ensures { Slotted state lo hi next result }
{
    if lo <= state && state <= hi {
        Some(next)
    } else {
        None
    }
}

// The state after a known type that may stand in a container of this kind, in the order of docs/format.md, 3.4.
pub(crate) fn next_state(kind: Kind, state: u8, typ: u32) -> Option<u8>
    ensures { left_behind (kind_of kind) result ≡ step (drop state (order (kind_of kind))) typ }
{
    match (kind, typ) {
        (Kind::Model, types::VERSION) => slot(state, 0, 0, 1),
        (Kind::Model, types::NODE_ID) => slot(state, 1, 1, 2),
        (Kind::Model, types::NAMED_PATTERN_CNT) => slot(state, 2, 2, 3),
        (Kind::Model, types::NODE) => slot(state, 3, 3, 3),
        (Kind::Model, types::TAG_SYMBOL) => slot(state, 3, 4, 4),
        (Kind::Node, types::NODE_ID) => slot(state, 0, 0, 1),
        (Kind::Node, types::PARENT) => slot(state, 1, 1, 2),
        (Kind::Node, types::IDENTIFIER) => slot(state, 1, 2, 2),
        (Kind::Node, types::VALUE_EDGE) => slot(state, 1, 3, 3),
        (Kind::Node, types::PATTERN_EDGE) => slot(state, 1, 4, 4),
        (Kind::Node, types::SIGN_CONSTRAINT) => slot(state, 1, 5, 5),
        (Kind::ValueEdge, types::NODE_ID) => slot(state, 0, 0, 1),
        (Kind::ValueEdge, types::VALUE) => slot(state, 1, 1, 2),
        (Kind::PatternEdge, types::NODE_ID) => slot(state, 0, 0, 1),
        (Kind::PatternEdge, types::TAG) => slot(state, 1, 1, 2),
        (Kind::PatternEdge, types::CONSTRAINT) => slot(state, 2, 2, 2),
        (Kind::Constraint, types::CONSTRAINT_OPTION) => slot(state, 0, 0, 0),
        (Kind::ConstraintOption, types::VALUE | types::TAG | types::USER_FN_CALL) => slot(
            state, 0, 0, 0,
        ),
        (Kind::UserFnCall, types::FN_ID) => slot(state, 0, 0, 1),
        (Kind::UserFnCall, types::USER_FN_ARG) => slot(state, 1, 1, 1),
        (Kind::UserFnArg, types::VALUE | types::TAG) => slot(state, 0, 0, 1),
        (Kind::TagSymbol, types::TAG) => slot(state, 0, 0, 1),
        (Kind::TagSymbol, types::IDENTIFIER) => slot(state, 1, 1, 2),
        _ => None,
    }
}

// Whether a container of this kind may end in a state: nothing that must stand is left.
pub(crate) fn may_end(kind: Kind, state: u8) -> bool
    ensures { result ≡ final (drop state (order (kind_of kind))) }
{
    match kind {
        Kind::Model => 3 <= state,
        Kind::Node => 1 <= state,
        Kind::ValueEdge | Kind::PatternEdge | Kind::TagSymbol => 2 <= state,
        Kind::Constraint | Kind::ConstraintOption => true,
        Kind::UserFnCall | Kind::UserFnArg => 1 <= state,
    }
}
