// What an element is: its type number alone decides (docs/format.md, 3.1 and 3.2).
ghost use Rattle.std.specs.Prelude.{◌≡◌};
ghost use Rattle.lvs_spec.specs.Grammar.{meaning, unknown};
ghost use Rattle.lvs_grammar.specs.Types.{meaning_of, is_optional};

use lvs_spec::types;

// The nine containers: what holds elements.
#[derive(Clone, Copy)]
pub enum Kind {
    Model,
    Node,
    ValueEdge,
    PatternEdge,
    Constraint,
    ConstraintOption,
    UserFnCall,
    UserFnArg,
    TagSymbol,
}

// What holds plain bytes. A text is a RuleName in a Node and an Identifier in a TagSymbol.
#[derive(Clone, Copy)]
pub enum Leaf {
    Version,
    Integer,
    Value,
    Text,
    FunctionId,
}

// What an element of a known type has inside: two cases with a value of their own each, and so no Option.
#[derive(Clone, Copy)]
pub enum Known {
    Plain(Leaf),
    Container(Kind),
}

// What a type means; three cases.
#[derive(Clone, Copy)]
pub enum Meaning {
    Optional,
    Critical,
    Known(Known),
}

#[tactic(auto, unfolding(lvs_spec::specs::Grammar::meaning, lvs_spec::specs::Grammar::lookup, lvs_spec::specs::Grammar::known_types))]
pub(crate) fn meaning_of(typ: u32) -> Meaning
    ensures { meaning_of result ≡ meaning typ }
{
    match typ {
        types::VALUE => Meaning::Known(Known::Plain(Leaf::Value)),
        types::TAG => Meaning::Known(Known::Plain(Leaf::Integer)),
        types::NODE_ID => Meaning::Known(Known::Plain(Leaf::Integer)),
        types::FN_ID => Meaning::Known(Known::Plain(Leaf::FunctionId)),
        types::IDENTIFIER => Meaning::Known(Known::Plain(Leaf::Text)),
        types::USER_FN_CALL => Meaning::Known(Known::Container(Kind::UserFnCall)),
        types::USER_FN_ARG => Meaning::Known(Known::Container(Kind::UserFnArg)),
        types::CONSTRAINT_OPTION => Meaning::Known(Known::Container(Kind::ConstraintOption)),
        types::CONSTRAINT => Meaning::Known(Known::Container(Kind::Constraint)),
        types::VALUE_EDGE => Meaning::Known(Known::Container(Kind::ValueEdge)),
        types::PATTERN_EDGE => Meaning::Known(Known::Container(Kind::PatternEdge)),
        types::SIGN_CONSTRAINT => Meaning::Known(Known::Plain(Leaf::Integer)),
        types::PARENT => Meaning::Known(Known::Plain(Leaf::Integer)),
        types::VERSION => Meaning::Known(Known::Plain(Leaf::Version)),
        types::NODE => Meaning::Known(Known::Container(Kind::Node)),
        types::TAG_SYMBOL => Meaning::Known(Known::Container(Kind::TagSymbol)),
        types::NAMED_PATTERN_CNT => Meaning::Known(Known::Plain(Leaf::Integer)),
        _ => unknown_type(typ),
    }
}

// An unknown type that is even and at least 32 (decimal) is optional, any other is critical.
#[tactic(auto, unfolding(lvs_spec::specs::Grammar::unknown))]
fn unknown_type(typ: u32) -> Meaning
    ensures { meaning_of result ≡ unknown typ }
{
    if 32 <= typ && typ % 2 == 0 {
        Meaning::Optional
    } else {
        Meaning::Critical
    }
}

pub(crate) fn is_optional(typ: u32) -> bool
    ensures { result ≡ is_optional (meaning typ) }
{
    matches!(meaning_of(typ), Meaning::Optional)
}
