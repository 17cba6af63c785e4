//! The lines, gathered in a buffer on the stack: that of std's `BufWriter` would be on the heap.
ghost use Rattle.std.specs.Prelude.{◌≡◌, ◌+◌, ◌≤◌, ◌++◌, length};

use std::fmt;
use std::fmt::{Display, Write as _};
use std::io::Write;

/// The first `used` bytes of `gathered` are not written yet.
#[derive(Drop)]
pub struct AnswerWriter<W> {
    to: W,
    gathered: [u8; 65536],
    used: usize,
    ghost within: { used ≤ 65536 },
}

impl<W: Write> AnswerWriter<W> {
    pub fn new(to: W) -> AnswerWriter<W> {
        AnswerWriter {
            to,
            gathered: [0; 65536],
            used: 0,
        }
    }

    /// Gathering never fails.
    pub fn put<D: Display + Drop>(&mut self, text: D) {
        let _ = self.write(text);
    }

    /// What can't be written is lost, and the program goes on.
    pub fn flush(&mut self)
        ensures { self.new.used ≡ 0 }
    {
        let used = self.used;
        self.used = 0;
        let _ = self.to.write_all(&self.gathered[..used]);
    }
}

impl<W: Write> AnswerWriter<W> {
    ghost use Rattle.lvs_cases.specs.Gathering.{waiting};

    /// A text for which there is room.
    fn gather(&mut self, text: &[u8])
        requires { self.old.used + length text.now ≤ 65536 }
        ensures bytes { waiting self.new ≡ waiting self.old ++ text.now }
        ensures to { self.new.to ≡ self.old.to }
    {
        let used = self.used + text.len();
        self.gathered[self.used..used].copy_from_slice(text);
        self.used = used;
    }
}

impl<W: Write> fmt::Write for AnswerWriter<W> {
    ghost use Rattle.lvs_cases.specs.Gathering.{Gathers};

    ghost write_str_gives = { Gathers };

    fn write_str(&mut self, text: &str) -> fmt::Result {
        let text = text.as_bytes();
        if text.len() > self.gathered.len() - self.used {
            self.flush();
        }
        if text.len() > self.gathered.len() {
            let _ = self.to.write_all(text);
        } else {
            self.gather(text);
        }
        Ok(())
    }
}

/// Each number with a blank before it.
#[derive(Clone, Copy)]
pub struct Listed<'a, T>(pub &'a [T]);

impl<T: Display> Display for Listed<'_, T> {
    fn fmt<W: fmt::Write>(&self, f: &mut fmt::Formatter<W>) -> fmt::Result {
        for x in self.0 {
            write!(f, " {x}")?;
        }
        Ok(())
    }
}

/// One blank, then two hexadecimal digits for each byte. Nothing for no bytes.
#[derive(Clone, Copy)]
pub struct Hex<'a>(pub &'a [u8]);

impl Display for Hex<'_> {
    fn fmt<W: fmt::Write>(&self, f: &mut fmt::Formatter<W>) -> fmt::Result {
        if self.0.is_empty() {
            return Ok(());
        }
        f.write_str(" ")?;
        // eight bytes are one number, since each number costs a call
        for part in self.0.chunks(8) {
            let number = part.iter().fold(0u64, |n, b| n << 8 | u64::from(*b));
            let width = 2 * part.len();
            write!(f, "{number:0width$x}")?;
        }
        Ok(())
    }
}
