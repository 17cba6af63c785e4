// Why a call refuses its input (docs/format.md, 5), in the order of the refusals' numbers.
ghost use Rattle.std.specs.Prelude.{◌≡◌};
ghost use Rattle.lvs_spec.specs.Refusals.{refusal_of, rule_number, name_number};

/// Which of the two names that a call takes.
#[derive(Clone, Copy, Debug, PartialEq, Eq)]
pub enum Side {
    Packet,
    Key,
}

/// What a name is refused for.
#[derive(Clone, Copy, Debug, PartialEq, Eq)]
pub enum NameFault {
    TooLong,
    Malformed,
    ManyComponents,
}

/// What a model that can be read is refused for, in the order in which the rules are tested.
#[derive(Clone, Copy, Debug, PartialEq, Eq)]
pub enum Rule {
    ManyNodes = 4,
    TagRange = 5,
    OwnId = 6,
    StartId = 7,
    Destination = 8,
    Signer = 9,
    OneTerm = 10,
    Parent = 11,
    Call = 12,
    Root = 13,
    Parallel = 14,
}

/// Why a call refuses, with what it says of the place.
#[derive(Clone, Copy, Debug, PartialEq, Eq)]
pub enum Refusal {
    TooLong,
    // The first byte at fault.
    Malformed { place: u32 },
    OtherVersion,
    // The first Node that breaks the rule, or 0 where the rule names none.
    Rule { rule: Rule, node: u32 },
    Name { side: Side, fault: NameFault },
    ShortWords,
    NoDescription,
    ShortOutput,
    UnfitCertificate { index: u32 },
    ManyCertificates,
    ShortPath,
}

impl Rule {
    pub fn number(self) -> u32
        ensures { result ≡ rule_number self }
    {
        self as u32
    }
}

impl Refusal {
    /// The number that docs/format.md gives it.
    pub fn number(self) -> u32
        ensures { result ≡ (refusal_of self).number }
    {
        match self {
            Refusal::TooLong => 1,
            Refusal::Malformed { .. } => 2,
            Refusal::OtherVersion => 3,
            Refusal::Rule { rule, .. } => rule.number(),
            Refusal::Name { side, fault } => name_number(side, fault),
            Refusal::ShortWords => 27,
            Refusal::NoDescription => 30,
            Refusal::ShortOutput => 31,
            Refusal::UnfitCertificate { .. } => 32,
            Refusal::ManyCertificates => 33,
            Refusal::ShortPath => 34,
        }
    }

    /// Where: a byte, the index of a Node or of a certificate; 0 where it has no place.
    pub fn at(self) -> u32
        ensures { result ≡ (refusal_of self).at }
    {
        match self {
            Refusal::Malformed { place } => place,
            Refusal::Rule { node, .. } => node,
            Refusal::UnfitCertificate { index } => index,
            _ => 0,
        }
    }
}

// Three numbers for either name.
fn name_number(side: Side, fault: NameFault) -> u32
    ensures { result ≡ name_number side fault }
{
    match (side, fault) {
        (Side::Packet, NameFault::TooLong) => 21,
        (Side::Packet, NameFault::Malformed) => 22,
        (Side::Packet, NameFault::ManyComponents) => 23,
        (Side::Key, NameFault::TooLong) => 24,
        (Side::Key, NameFault::Malformed) => 25,
        (Side::Key, NameFault::ManyComponents) => 26,
    }
}
