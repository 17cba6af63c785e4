// A rule that is broken, if one is; and which of two has the lower number.
ghost use Rattle.std.specs.Prelude.{◌≡◌, min, ltb};
ghost use Rattle.lvs_rules.specs.Broken.{number};

use lvs_spec::refusal::Rule;

// Whether the first is lower. None is above every rule, where the order that Option derives has it first.
#[inline(always)]
pub(crate) fn is_lower(a: Option<Rule>, b: Option<Rule>) -> bool
    ensures { result ≡ ltb (number a) (number b) }
{
    match (a, b) {
        (Some(x), Some(y)) => x.number() < y.number(),
        (Some(_), None) => true,
        (None, _) => false,
    }
}

#[inline(always)]
pub(crate) fn lower(a: Option<Rule>, b: Option<Rule>) -> Option<Rule>
    ensures { number result ≡ min (number a) (number b) }
{
    if is_lower(b, a) { b } else { a }
}
