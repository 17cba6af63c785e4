// What a walk looks for and finds.
/// What is looked for: any match; a packet match with a key match after it, which starts at a node and at a place of the key's name; a key match for
/// the packet's node.
#[derive(Clone, Copy)]
pub enum Goal {
    Match,
    Packet { start: u64, from: usize },
    Key(u64),
}

/// The packet's node, and the node where the walk ended: the key's, or the packet's again where no key is asked for.
#[derive(Clone, Copy)]
pub struct Pair {
    pub packet: u64,
    pub key: u64,
}
