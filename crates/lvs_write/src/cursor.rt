// A place in the two lists of a description, and in the bytes that it is written as.
ghost use Rattle.std.specs.Prelude.{◌≡◌, ◌+◌};
ghost use Rattle.lvs_write.specs.Steps.{capped, TakesNumber, TakesText};

// One more than a model may have: bytes are counted up to here.
const CAP: usize = lvs_spec::MAX_MODEL_BYTES + 1;

// What is left of the two lists, and how many bytes there are so far.
#[derive(Clone, Copy)]
pub(crate) struct Cursor<'a> {
    pub(crate) numbers: &'a [u64],
    pub(crate) texts: &'a [u8],
    pub(crate) at: usize,
}

impl<'a> Cursor<'a> {
    // The next number, and the place behind it.
    pub(crate) fn number(self) -> Option<(u64, Cursor<'a>)>
        ensures { TakesNumber self.entry result }
    {
        let (n, numbers) = self.numbers.split_first()?;
        Some((*n, Cursor { numbers, ..self }))
    }

    // The next text, and the place behind it: its length is a number, its bytes are the next ones of the texts.
    pub(crate) fn text(self) -> Option<(&'a [u8], Cursor<'a>)>
        ensures { TakesText self.entry result }
    {
        let (n, next) = self.number()?;
        let (text, texts) = next.texts.split_at_checked(n as usize)?;
        Some((text, Cursor { texts, ..next }))
    }

    // The same place in the lists, `size` bytes further on.
    pub(crate) fn behind(self, size: usize) -> Cursor<'a>
        ensures { result ≡ record { numbers = self.entry.numbers; texts = self.entry.texts; at = capped (self.entry.at + size) } }
    {
        let at = add(self.at, size);
        Cursor { at, ..self }
    }
}

#[tactic(auto, unfolding(crate::specs::Steps::capped))]
pub(crate) fn cap(n: usize) -> usize
    ensures { result ≡ capped n }
{
    n.min(CAP)
}

// The size so far and n bytes more.
#[tactic(auto, unfolding(crate::specs::Steps::capped))]
pub(crate) fn add(size: usize, n: usize) -> usize
    ensures { result ≡ capped (size + n) }
{
    cap(size.saturating_add(n))
}
