//! Prints the elements of standard input, one to a line, for looking at a model or a packet by hand.
//!
//! A line is TYPE START END in decimal, where START to END is the element's inside. The last line is
//! `end`, or `malformed at PLACE` for the place where no element begins. The insides are not read.
#![tactic(auto)]

ghost use Rattle.std.specs.Prelude.{◌≡◌, ◌+◌, ◌≤◌, ◌++◌, length, take};

use std::fmt;
use std::fmt::{Display, Write as _};
use tlv::{Place, Read};

const STDIN_FILENO: i32 = 0;

const STDOUT_FILENO: i32 = 1;

/// Of a longer input nothing is printed: its first part alone would mostly seem malformed.
const LIMIT: usize = 65536;

fn main() {
    let mut space = [0; LIMIT + 1];
    // a read that fails ends the input
    let count = io::read_full(STDIN_FILENO, &mut space);
    if count > LIMIT {
        put_line("longer than 65536 bytes");
    } else {
        print_elements(&space[..count]);
    }
}

/// By places, which are what it prints: an iterator over elements has only their insides.
fn print_elements(s: &[u8]) {
    let mut place = Place { at: 0 };
    loop {
        match place.element(s) {
            Read::Found {
                typ,
                start,
                end,
                next,
            } => {
                put_line(format_args!("{typ} {start} {end}"));
                place = next;
            }
            Read::End => return put_line("end"),
            Read::Malformed => {
                let at = place.at;
                return put_line(format_args!("malformed at {at}"));
            }
        }
    }
}

/// What can't be written is lost, and the program goes on.
fn put_line<D: Display + Drop>(text: D) {
    let mut line = Line {
        gathered: [0; 80],
        used: 0,
    };
    let _ = writeln!(line, "{text}");
    line.flush();
}

/// A line, for one write. The first `used` bytes of `gathered` are not written yet.
#[derive(Drop)]
struct Line {
    gathered: [u8; 80],
    used: usize,
    ghost within: { used ≤ 80 },
}

impl Line {
    fn flush(&mut self)
        ensures { self.new.used ≡ 0 }
    {
        let used = self.used;
        self.used = 0;
        io::write_all(STDOUT_FILENO, &self.gathered[..used]);
    }
}

impl fmt::Write for Line {
    ghost write_str_gives = { λ old text new. old.used + length text ≤ 80 → take new.used new.gathered ≡ take old.used old.gathered ++ text };

    fn write_str(&mut self, text: &str) -> fmt::Result {
        let text = text.as_bytes();
        if text.len() > self.gathered.len() - self.used {
            self.flush();
            io::write_all(STDOUT_FILENO, text);
        } else {
            let used = self.used + text.len();
            self.gathered[self.used..used].copy_from_slice(text);
            self.used = used;
        }
        Ok(())
    }
}
