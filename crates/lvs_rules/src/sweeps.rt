// The elements of which a container may hold any number.
ghost use Rattle.std.specs.Prelude.{◌≡◌, ℕ, List, Option};
ghost use Rattle.std.specs.Fn.{FnReturnsAt};
ghost use Rattle.tlv.specs.Fields.{insides};
ghost use Rattle.lvs_spec.specs.declared.refusal.Rule.{Rule as Broken};
ghost use Rattle.lvs_rules.specs.Broken.{number};
ghost use Rattle.lvs_rules.specs.Lowest.{least_of};

use crate::broken::lower;
use lvs_spec::refusal::Rule;
use tlv::Elements;

// The lowest rule that the elements of a type in `s` break, where `rule_of` tells it by an element's inside.
pub(crate) fn sweep<F: Fn(&[u8]) -> Option<Rule>>(s: &[u8], wanted: u32, rule_of: F) -> Option<Rule>
    requires { F.IsAlwaysCallable rule_of }
    ensures { (rule : List ℕ → ℕ)
        → ((b : List ℕ) (r : Option Broken) → FnReturnsAt F.Fn rule_of b r → number r ≡ rule b)
        → number result ≡ least_of rule (insides wanted s.now) }
{
    let mut lowest = None;
    for element in Elements::of(s) {
        if element.typ == wanted {
            lowest = lower(lowest, rule_of(element.inside));
        }
    }
    lowest
}
