// The rules that ask something of a ConstraintOption or of a call in it: 10 and 12, and 5 of an argument.
ghost use Rattle.std.specs.Prelude.{◌≡◌, length};
ghost use Rattle.lvs_spec.specs.Model.{call_of, option_of, argument_of};
ghost use Rattle.tlv.specs.Fields.{insides};
ghost use Rattle.lvs_rules.specs.Broken.{number};
ghost use Rattle.lvs_rules.specs.Lowest.{argument_rule, arguments_rule, terms_rule};

use crate::numbers::tag_rule;
use lvs_spec::refusal::Rule;
use lvs_spec::types::{FN_ID, TAG, USER_FN_ARG, USER_FN_CALL, VALUE};
use tlv::Elements;

// Rule 5 of the Tag in an argument; an argument with neither Value nor Tag counts as Tag 0.
pub(crate) fn argument_rule(b: &[u8]) -> Option<Rule>
    ensures { number result ≡ argument_rule (argument_of b.now) }
{
    for element in Elements::of(b) {
        if element.typ == VALUE {
            return None;
        }
        if element.typ == TAG {
            return tag_rule(tlv::number_of(element.inside));
        }
    }
    tag_rule(0)
}

// Rule 12 of a call: a known function, with as many arguments as it takes.
pub(crate) fn arguments_rule(call: &[u8]) -> Option<Rule>
    ensures { number result ≡ arguments_rule (call_of call.now) }
{
    let n = count_of(call, USER_FN_ARG);
    match lvs_functions::function_of(tlv::inside_of(call, FN_ID)) {
        Some(function) => (n != function.arity()).then_some(Rule::Call),
        None => Some(Rule::Call),
    }
}

// Rule 10 of a ConstraintOption.
#[tactic(auto, unfolding(crate::specs::Lowest::terms_rule, crate::specs::Lowest::broken))]
pub(crate) fn terms_rule(b: &[u8]) -> Option<Rule>
    ensures { number result ≡ terms_rule (option_of b.now) }
{
    (term_count(b) != 1).then_some(Rule::OneTerm)
}

// How many Values, Tags and UserFnCalls a ConstraintOption holds.
fn term_count(b: &[u8]) -> usize
    ensures { result ≡ length (option_of b.now) }
{
    Elements::of(b)
        .filter(|e| e.typ == VALUE || e.typ == TAG || e.typ == USER_FN_CALL)
        .count()
}

// How many elements of a type `s` holds.
pub(crate) fn count_of(s: &[u8], wanted: u32) -> usize
    ensures { result ≡ length (insides wanted s.now) }
{
    Elements::of(s).filter(|e| e.typ == wanted).count()
}
