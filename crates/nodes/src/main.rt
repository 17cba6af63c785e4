//! Prints what each Node of a model holds, for looking at a model by hand. No rule is tested: lvs_check does that.
//!
//! Standard input is the model. A line is `node` and a Node's numbers of ValueEdges, PatternEdges and SignConstraints. The last
//! line is `nodes` and their number. `malformed` stands for a number where the bytes are not elements and nothing else.
#![tactic(auto)]

ghost use Rattle.std.specs.Prelude.{◌≡◌, ◌+◌, ◌≤◌, ◌++◌, length, take};
ghost use Rattle.lvs_spec.specs.Types.{Node};
ghost use Rattle.tlv_reader.specs.Count.{count_of};

use lvs_spec::types;
use std::fmt;
use std::fmt::{Display, Write as _};
use tlv::Read;

const STDIN_FILENO: i32 = 0;

const STDOUT_FILENO: i32 = 1;

/// A number, or the word in its place.
#[derive(Clone, Copy)]
struct Shown(Option<usize>);

impl Display for Shown {
    fn fmt<W: fmt::Write>(&self, f: &mut fmt::Formatter<W>) -> fmt::Result {
        match self.0 {
            Some(n) => write!(f, "{n}"),
            None => write!(f, "malformed"),
        }
    }
}

fn main() {
    // twice what a model may have; of a longer input the rest is left unread
    let mut space = [0; 65536];
    // a read that fails ends the input
    let count = io::read_full(STDIN_FILENO, &mut space);
    let model = &space[..count];
    print_nodes(model);
    put_line(format_args!("nodes {}", Shown(count_nodes(model))));
}

/// Of an accepted model, the number that the verdict gives (proofs/Accepted.antt).
fn count_nodes(model: &[u8]) -> Option<usize>
    ensures { result ≡ count_of Node model.now }
{
    tlv_reader::count_of_type(model, types::NODE)
}

fn print_nodes(model: &[u8]) {
    let mut at = 0;
    while let Read::Found { typ, next, .. } = tlv_reader::element_from(model, at) {
        if typ == types::NODE {
            print_node(tlv_reader::inside_from(model, at));
        }
        at = next.at;
    }
}

fn print_node(node: &[u8]) {
    let values = Shown(tlv_reader::count_of_type(node, types::VALUE_EDGE));
    let patterns = Shown(tlv_reader::count_of_type(node, types::PATTERN_EDGE));
    let signs = Shown(tlv_reader::count_of_type(node, types::SIGN_CONSTRAINT));
    put_line(format_args!("node {values} {patterns} {signs}"));
}

/// What can't be written is lost, and the program goes on.
fn put_line<D: Display + Drop>(text: D) {
    let mut line = Line {
        gathered: [0; 80],
        used: 0,
    };
    let _ = writeln!(line, "{text}");
    line.flush();
}

/// A line, for one write. The first `used` bytes of `gathered` are not written yet.
#[derive(Drop)]
struct Line {
    gathered: [u8; 80],
    used: usize,
    ghost within: { used ≤ 80 },
}

impl Line {
    fn flush(&mut self)
        ensures { self.new.used ≡ 0 }
    {
        let used = self.used;
        self.used = 0;
        io::write_all(STDOUT_FILENO, &self.gathered[..used]);
    }
}

impl fmt::Write for Line {
    ghost write_str_gives = { λ old text new. old.used + length text ≤ 80 → take new.used new.gathered ≡ take old.used old.gathered ++ text };

    fn write_str(&mut self, text: &str) -> fmt::Result {
        let text = text.as_bytes();
        if text.len() > self.gathered.len() - self.used {
            self.flush();
            io::write_all(STDOUT_FILENO, text);
        } else {
            let used = self.used + text.len();
            self.gathered[self.used..used].copy_from_slice(text);
            self.used = used;
        }
        Ok(())
    }
}
