// The functions that a constraint may call, by their names. Any bytes have an answer.
#![tactic(auto)]

ghost use Rattle.std.specs.Prelude.{◌≡◌};
ghost use Rattle.lvs_spec.specs.Verdict.{arity, function_of};
ghost use Rattle.lvs_functions.specs.Functions.{known_of, function_read};

/// The four known functions.
#[derive(Clone, Copy, Debug, PartialEq, Eq)]
pub enum Function {
    Eq,
    EqType,
    IsValidId,
    IsValidYear,
}

impl Function {
    /// How many arguments it takes.
    #[tactic(auto, unfolding(lvs_spec::specs::Verdict::arity))]
    pub fn arity(self) -> usize
        ensures { result ≡ arity (known_of self) }
    {
        match self {
            Function::Eq | Function::EqType => 1,
            Function::IsValidId | Function::IsValidYear => 0,
        }
    }
}

/// The function that a FnId names, compared byte for byte. By `==`, since a match on byte strings leaves a goal for each byte at which it fails.
pub fn function_of(s: &[u8]) -> Option<Function>
    ensures { result ≡ function_read (function_of s.now) }
{
    if s == b"$eq".as_slice() {
        Some(Function::Eq)
    } else if s == b"$eq_type".as_slice() {
        Some(Function::EqType)
    } else if s == b"$isValidID".as_slice() {
        Some(Function::IsValidId)
    } else if s == b"$isValidYear".as_slice() {
        Some(Function::IsValidYear)
    } else {
        None
    }
}
