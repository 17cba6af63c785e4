// What matching answers. Apart from the calls, since the contracts that name a type must not stand where it is declared.

/// The node of a match, and how many Tags are bound.
#[derive(Clone, Copy)]
pub struct Match {
    pub node: u64,
    pub bound: u32,
}
