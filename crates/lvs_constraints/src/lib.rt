// The Constraints of a PatternEdge (docs/format.md, 7.3), for any bytes.
#![tactic(auto)]

ghost use Rattle.std.specs.Prelude.{◌≡◌};

use lvs_bindings::Slots;
use lvs_bindings::names::Names;
use lvs_functions::Function;
use lvs_names::Component;
use lvs_spec::types::{
    CONSTRAINT, CONSTRAINT_OPTION, FN_ID, TAG, USER_FN_ARG, USER_FN_CALL, VALUE,
};
use tlv::{Element, Elements};

// What Constraints are tested on: the two names and the bindings as they stand, and the component that is to pass.
#[derive(Clone, Copy)]
pub struct Trial<'a> {
    pub names: Names<'a>,
    pub slots: &'a Slots,
    pub component: Component<'a>,
}

impl<'a> Trial<'a> {
    ghost use Rattle.tlv.specs.Lists.{any, all};
    ghost use Rattle.lvs_spec.specs.Model.{component_of, argument_of, call_of, term_from, option_of, constraint_of, pattern_edge_of};
    ghost use Rattle.lvs_spec.specs.Walk.{call_holds, term_holds, option_holds, constraint_holds};
    ghost use Rattle.tlv.specs.Answers.{element_of};
    ghost use Rattle.lvs_constraints.specs.Trials.{BoundTo, ArgumentIs, bindings, content};

    // The bytes from the component on that a Tag is bound to.
    fn bound(&self, tag: u64) -> Option<&'a [u8]>
        ensures { BoundTo (bindings self.now) tag result }
    {
        let span = self.slots.get(tag)?;
        Some(self.names.text_from(span.start as usize))
    }

    // The bytes from the component on that a UserFnArg stands for: its first Value, or what its first Tag is bound to.
    fn argument(&self, s: &'a [u8]) -> Option<&'a [u8]>
        ensures { ArgumentIs (bindings self.now) s.now result }
    {
        for e in Elements::of(s) {
            if e.typ == VALUE {
                return Some(e.inside);
            }
            if e.typ == TAG {
                return self.bound(tlv::number_of(e.inside));
            }
        }
        None
    }

    // Whether a UserFnCall holds.
    fn call_holds(&self, s: &'a [u8]) -> bool
        ensures { result ≡ call_holds (bindings self.now) (content self.now) (call_of s.now) }
    {
        let argument = tlv::inside_of(s, USER_FN_ARG);
        let c = self.component;
        match lvs_functions::function_of(tlv::inside_of(s, FN_ID)) {
            Some(Function::Eq) => match self.argument(argument) {
                Some(a) => lvs_names::compare(a, c).equal,
                None => false,
            },
            Some(Function::EqType) => match self.argument(argument) {
                Some(a) => lvs_names::same_type(a, c.bytes),
                None => false,
            },
            Some(Function::IsValidId) => lvs_names::value_size(c.bytes) == 6,
            Some(Function::IsValidYear) => lvs_names::value_size(c.bytes) == 4,
            None => false,
        }
    }

    // Whether an element of an option is a term that holds.
    #[tactic(auto, using(crate::proofs::Holds::term_none))]
    fn term_holds(&self, e: Element<'a>) -> bool
        ensures { result ≡ any (term_holds (bindings self.now) (content self.now)) (term_from (element_of e.entry)) }
    {
        match e.typ {
            VALUE => lvs_names::compare(e.inside, self.component).equal,
            TAG => match self.bound(tlv::number_of(e.inside)) {
                Some(a) => lvs_names::compare(a, self.component).equal,
                None => false,
            },
            USER_FN_CALL => self.call_holds(e.inside),
            _ => false,
        }
    }

    // Whether a ConstraintOption holds: one of its terms does.
    fn option_holds(&self, s: &'a [u8]) -> bool
        ensures { result ≡ option_holds (bindings self.now) (content self.now) (option_of s.now) }
    {
        Elements::of(s).any(|e| self.term_holds(e))
    }

    // Whether a Constraint holds: one of its options does.
    fn constraint_holds(&self, s: &'a [u8]) -> bool
        ensures { result ≡ constraint_holds (bindings self.now) (content self.now) (constraint_of s.now) }
    {
        Elements::of(s).any(|e| e.typ == CONSTRAINT_OPTION && self.option_holds(e.inside))
    }

    // Whether every Constraint of a PatternEdge holds; `s` is the edge, or a part of it with all its Constraints. Never a part of its caller: most edges
    // have none, and the walk's frame would have room for what is tried here at each level.
    #[inline(never)]
    pub fn constraints_hold(&self, s: &'a [u8]) -> bool
        ensures { result ≡ all (constraint_holds (bindings self.now) (content self.now)) (pattern_edge_of s.now).constraints }
    {
        Elements::of(s).all(|e| e.typ != CONSTRAINT || self.constraint_holds(e.inside))
    }
}
