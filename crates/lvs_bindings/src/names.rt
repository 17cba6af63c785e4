// The two names that a call takes. Their text is the packet's bytes, then the key's.
ghost use Rattle.std.specs.Prelude.{◌≡◌, ◌≤◌, length};
ghost use Rattle.lvs_spec.specs.Limits.{max_name_bytes};
ghost use Rattle.lvs_bindings.specs.Names.{name_for, text_place, text_from};

use lvs_spec::refusal::Side;

#[derive(Clone, Copy)]
pub struct Names<'a> {
    pub packet: &'a [u8],
    pub key: &'a [u8],
}

impl<'a> Names<'a> {
    #[tactic(auto, unfolding(crate::specs::Names::name_for))]
    pub fn of(self, side: Side) -> &'a [u8]
        ensures { result.now ≡ name_for self.entry.packet.now self.entry.key.now side }
    {
        match side {
            Side::Packet => self.packet,
            Side::Key => self.key,
        }
    }

    // Where a place of a name lies in the text. A layer below: `requires` asks that both fit, which the calls have tested.
    #[tactic(auto, unfolding(crate::specs::Names::text_place))]
    pub fn place(self, side: Side, at: usize) -> usize
        requires { (length self.packet.now ≤ max_name_bytes) × (at ≤ max_name_bytes) }
        ensures { result ≡ text_place self.entry.packet.now side at }
    {
        match side {
            Side::Packet => at,
            Side::Key => self.packet.len() + at,
        }
    }

    // The text from a place on.
    pub fn text_from(self, at: usize) -> &'a [u8]
        ensures { result.now ≡ text_from self.entry.packet.now self.entry.key.now at }
    {
        if at < self.packet.len() {
            return &self.packet[at..];
        }
        let at = at - self.packet.len();
        &self.key[at.min(self.key.len())..]
    }
}
