//! Standard input and output over the toolchain's crate `io`, which takes `read` and `write` of the C library and no more: std's also take `errno`.
use std::io::{ErrorKind, Read, Result, Write};

const STDIN_FILENO: i32 = 0;

const STDOUT_FILENO: i32 = 1;

/// Fills what it is given as far as the input goes. A read that fails ends the input.
#[derive(Clone, Copy)]
pub struct Stdin;

impl Read for Stdin {
    fn read(&mut self, part: &mut [u8]) -> Result<usize> {
        Ok(io::read_full(STDIN_FILENO, part))
    }
}

/// Writes all that it is given, or fails, when some of it may have been written.
#[derive(Clone, Copy)]
pub struct Stdout;

impl Write for Stdout {
    fn write(&mut self, part: &[u8]) -> Result<usize> {
        if io::write_all(STDOUT_FILENO, part) {
            Ok(part.len())
        } else {
            Err(ErrorKind::Other.into())
        }
    }

    fn flush(&mut self) -> Result<()> {
        Ok(())
    }
}
