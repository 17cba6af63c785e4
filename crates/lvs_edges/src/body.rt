// Where a Node's body lies. Apart from `Nodes`, since the contracts that name a type must not stand where it is declared.

/// The part of a model with a Node's edges and signers.
#[derive(Clone, Copy)]
pub struct Body {
    pub start: u32,
    pub end: u32,
}
