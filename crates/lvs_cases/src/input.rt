//! The cases, read ahead into a buffer on the stack: that of std's `BufReader` would be on the heap.
ghost use Rattle.std.specs.Prelude.{◌≡◌, ◌-◌, ◌≤◌, ◌<◌, ◌++◌, min, length, take, IfOk, OnOk};
ghost use Rattle.std.specs.Io.KnownBytes.{Keeps, Consumes, IsAtEnd};

use std::io;
use std::io::Read;

/// Why a case has no answer: it is cut, or a field is not what the call takes.
#[derive(Clone, Copy, Debug, PartialEq, Eq)]
pub struct Broken;

/// A read that fails ends the input.
impl From<io::Error> for Broken {
    fn from(_e: io::Error) -> Broken {
        Broken
    }
}

/// The bytes of `ahead` from `at` to `end` are read and not taken yet.
#[derive(Drop)]
pub struct CaseReader<R> {
    source: R,
    ahead: [u8; 65536],
    at: usize,
    end: usize,
    ghost taken: { at ≤ end },
    ghost within: { end ≤ 65536 },
}

impl<R: Read> CaseReader<R> {
    ghost use Rattle.lvs_cases.specs.Reading.{left};

    pub fn new(source: R) -> CaseReader<R>
        ensures { left R.remaining result ≡ R.remaining source }
    {
        CaseReader {
            source,
            ahead: [0; 65536],
            at: 0,
            end: 0,
        }
    }

    pub fn array<const N: usize>(&mut self) -> Result<[u8; N], Broken>
        ensures { IfOk result (λ bytes. Consumes (left R.remaining self.old) (left R.remaining self.new) bytes) }
    {
        let mut bytes = [0; N];
        // The same as below, and quicker where all of it is read ahead: most reads are of a number.
        if N <= self.end - self.at {
            self.take_ahead(&mut bytes);
            return Ok(bytes);
        }
        self.read_exact(&mut bytes)?;
        Ok(bytes)
    }
}

impl<R: Read> CaseReader<R> {
    ghost use Rattle.lvs_cases.specs.Reading.{ahead_bytes, left};

    /// Reads once more where everything has been taken. At the end of the input that gives nothing.
    fn fill(&mut self) -> io::Result<()>
        ensures bytes { Keeps (left R.remaining self.old) (left R.remaining self.new) }
        ensures end { OnOk result (self.new.end ≤ self.new.at → IsAtEnd (R.remaining self.new.source)) }
    {
        if self.at == self.end {
            self.at = 0;
            self.end = 0;
            self.end = self.source.read(&mut self.ahead)?;
        }
        Ok(())
    }

    /// Takes as many bytes as are read ahead and `part` has room for.
    fn take_ahead(&mut self, part: &mut [u8]) -> usize
        ensures count { result ≡ min (self.old.end - self.old.at) (length part.old) }
        ensures source { self.new.source ≡ self.old.source }
        ensures bytes { ahead_bytes self.old ≡ take result part.new ++ ahead_bytes self.new }
    {
        let count = part.len().min(self.end - self.at);
        part[..count].copy_from_slice(&self.ahead[self.at..self.at + count]);
        self.at += count;
        count
    }
}

impl<R: Read> Read for CaseReader<R> {
    ghost use Rattle.lvs_cases.specs.Reading.{left};

    ghost remaining = { left R.remaining };

    fn read(&mut self, part: &mut [u8]) -> io::Result<usize> {
        self.fill()?;
        Ok(self.take_ahead(part))
    }
}
