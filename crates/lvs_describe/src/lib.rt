// Takes a model's bytes apart into its description (lvs_description): a list of numbers and one of the texts' bytes. Any bytes have an answer: the
// definitions are total.
#![tactic(auto)]

mod output;
mod parts;
mod rows;

ghost use Rattle.std.specs.Prelude.{◌≡◌};
ghost use Rattle.lvs_spec.specs.Model.{model_of};
ghost use Rattle.lvs_description.specs.Description.{lists_of};
ghost use Rattle.lvs_describe.specs.Lent.{Describes};
ghost use Rattle.lvs_describe.specs.Answers.{described};

use lvs_spec::types::{NAMED_PATTERN_CNT, NODE_ID};
use output::Output;
use rows::{Sort, put_row};

// How many numbers a description has, and how many bytes of texts.
#[derive(Clone, Copy, Debug, PartialEq, Eq)]
pub struct Lengths {
    pub numbers: usize,
    pub texts: usize,
}

// Puts the description of `model` over the front of two lists, and answers how much of each it takes. Where one is too short, both stay: the first
// time nothing is lent, and what would be put is only counted.
pub fn describe(model: &[u8], numbers: &mut [u64], texts: &mut [u8]) -> Option<Lengths>
    ensures { record { answer = result; numbers = numbers.new; texts = texts.new } ≡
        described (model_of model.now) numbers.old texts.old }
{
    let numbers_left = numbers.len();
    let texts_left = texts.len();
    let mut counted = Output {
        numbers: &mut [0u64; 0],
        texts: &mut [0u8; 0],
        numbers_left,
        texts_left,
    };
    put_model(model, &mut counted)?;
    let lengths = Lengths {
        numbers: numbers_left - counted.numbers_left,
        texts: texts_left - counted.texts_left,
    };
    let mut all = Output {
        numbers,
        texts,
        numbers_left,
        texts_left,
    };
    put_model(model, &mut all);
    Some(lengths)
}

fn put_model(model: &[u8], out: &mut Output<'_>) -> Option<()>
    ensures { Describes (lists_of (model_of model.now)) out.old out.new result }
{
    let start = tlv::number_in(model, NODE_ID);
    let count = tlv::number_in(model, NAMED_PATTERN_CNT);
    out.pair(start, count)?;
    put_row(model, Sort::Node, out)?;
    put_row(model, Sort::Symbol, out)
}
