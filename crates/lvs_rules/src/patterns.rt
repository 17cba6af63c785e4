// The rules that ask something of what a PatternEdge holds, each container by those in it.
ghost use Rattle.std.specs.Prelude.{◌≡◌};
ghost use Rattle.lvs_spec.specs.Model.{call_of, option_of, constraint_of, pattern_edge_of};
ghost use Rattle.lvs_rules.specs.Broken.{number};
ghost use Rattle.lvs_rules.specs.Lowest.{call_rule, option_rule, constraint_rule, pattern_edge_rule};

use crate::broken::lower;
use crate::numbers::tag_rule;
use crate::options::{argument_rule, arguments_rule, terms_rule};
use crate::sweeps::sweep;
use lvs_spec::refusal::Rule;
use lvs_spec::types::{CONSTRAINT, CONSTRAINT_OPTION, TAG, USER_FN_ARG, USER_FN_CALL};

fn call_rule(b: &[u8]) -> Option<Rule>
    ensures { number result ≡ call_rule (call_of b.now) }
{
    lower(arguments_rule(b), sweep(b, USER_FN_ARG, argument_rule))
}

fn option_rule(b: &[u8]) -> Option<Rule>
    ensures { number result ≡ option_rule (option_of b.now) }
{
    let tags = sweep(b, TAG, |tag| tag_rule(tlv::number_of(tag)));
    lower(
        terms_rule(b),
        lower(tags, sweep(b, USER_FN_CALL, call_rule)),
    )
}

fn constraint_rule(b: &[u8]) -> Option<Rule>
    ensures { number result ≡ constraint_rule (constraint_of b.now) }
{
    sweep(b, CONSTRAINT_OPTION, option_rule)
}

pub(crate) fn pattern_edge_rule(b: &[u8]) -> Option<Rule>
    ensures { number result ≡ pattern_edge_rule (pattern_edge_of b.now) }
{
    let tag = tag_rule(tlv::number_in(b, TAG));
    lower(tag, sweep(b, CONSTRAINT, constraint_rule))
}
