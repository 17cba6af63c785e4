// The two lists that a description is put into.
ghost use Rattle.lvs_description.specs.Format.{put, put_text};
ghost use Rattle.lvs_describe.specs.Parts.{nothing, number, bytes};
ghost use Rattle.lvs_describe.specs.Lent.{Describes};

// Two lent lists, and how many numbers and how many bytes of texts may still be put. These are counted down, so that a list's place is its length
// less that; a list that is shorter is left alone, and what would be put into it is only counted.
#[derive(Drop)]
pub(crate) struct Output<'a> {
    pub(crate) numbers: &'a mut [u64],
    pub(crate) texts: &'a mut [u8],
    pub(crate) numbers_left: usize,
    pub(crate) texts_left: usize,
}

impl<'a> Output<'a> {
    pub(crate) fn number(&mut self, n: u64) -> Option<()>
        ensures { Describes (number n) self.old self.new result }
    {
        let left = self.numbers_left;
        self.numbers_left = left.checked_sub(1)?;
        if self.numbers.len() < left {
            return Some(());
        }
        let at = self.numbers.len() - left;
        self.numbers[at] = n;
        Some(())
    }

    pub(crate) fn pair(&mut self, a: u64, b: u64) -> Option<()>
        ensures { Describes (put a (number b)) self.old self.new result }
    {
        self.number(a)?;
        self.number(b)
    }

    // A text: its length, which is a number, and its bytes.
    pub(crate) fn text(&mut self, s: &[u8]) -> Option<()>
        ensures { Describes (put_text s.now nothing) self.old self.new result }
    {
        self.number(s.len() as u64)?;
        self.bytes(s)
    }

    // A number and a text.
    pub(crate) fn numbered(&mut self, n: u64, s: &[u8]) -> Option<()>
        ensures { Describes (put n (put_text s.now nothing)) self.old self.new result }
    {
        self.number(n)?;
        self.text(s)
    }

    fn bytes(&mut self, s: &[u8]) -> Option<()>
        ensures { Describes (bytes s.now) self.old self.new result }
    {
        let left = self.texts_left;
        self.texts_left = left.checked_sub(s.len())?;
        if self.texts.len() < left {
            return Some(());
        }
        let at = self.texts.len() - left;
        self.texts[at..at + s.len()].copy_from_slice(s);
        Some(())
    }
}
