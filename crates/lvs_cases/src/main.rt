// The case driver: makes the libraries' calls on cases from standard input and prints every number, word and byte that they answer, so that
// any other checker can be compared with it.
//
// A case is one letter, then its fields, each a 4-byte length (high byte first) and that many bytes. It gets one line, which ends with all
// that was lent to the call, as the call left it:
//
//     V  model                         accepted NODES | refused NUMBER AT
//     M  model, packet name, words     match NODE BOUND | no match | refused NUMBER AT, then the words
//     S  model, two names, words, path allowed PACKET KEY | not allowed | refused NUMBER AT, then the words and the path
//     P  model, two names, path        accepted | no | refused NUMBER AT
//     C  model, packet name, list      certificate INDEX | none | refused NUMBER AT
//     W  numbers, texts, output        written BYTES | refused NUMBER AT, then the output
//     D  model, numbers, texts         described NUMBERS BYTES | refused NUMBER AT, then the numbers and the texts
//     E  component, component          equal BYTES | different BYTES, the value bytes that were looked at
//
// AT is a refusal's second number: a Node's index, a byte's place or an entry's index, as docs/format.md, 5.1 has it for each number.
//
// The two names are the packet's and the key's. Words are binding words of 4 bytes, a path has words of 2 and numbers have 8 (high byte first): each
// is printed in decimal, with a blank before it. Bytes are printed as one blank and lowercase hexadecimal digits; no bytes as nothing. A name has
// at most 4,096 bytes, words and a path as many, and every other field 65,536. A field that is too long or holds part of a word or number or
// anything but one component, a cut case or another letter prints `broken` and ends.
#![tactic(auto)]

mod answers;
mod fields;
mod input;
mod output;
mod stdio;

use answers::Driver;
use input::{Broken, CaseReader};
use output::AnswerWriter;
use std::io::{Read, Write};
use stdio::{Stdin, Stdout};

/// What is lent to the calls: for the first field, for numbers, and for another field.
#[derive(Drop)]
struct Memory {
    model: [u8; 65536],
    numbers: [u64; 8192],
    texts: [u8; 65536],
}

fn main() {
    let mut memory = Memory {
        model: [0; 65536],
        numbers: [0; 8192],
        texts: [0; 65536],
    };
    let mut driver = Driver {
        input: CaseReader::new(Stdin),
        out: AnswerWriter::new(Stdout),
    };
    answer_cases(&mut driver, &mut memory);
    driver.out.flush();
}

/// Answers case after case, to the end of the input or the first broken one. No run exhausts the range.
fn answer_cases<R: Read, W: Write>(driver: &mut Driver<R, W>, memory: &mut Memory) {
    for _ in 0..u64::MAX {
        let Some(letter) = driver.input.letter() else {
            return;
        };
        if answer_case(letter, driver, memory).is_err() {
            driver.out.put("broken\n");
            return;
        }
    }
}

/// All but `W` begin with a model, or a component in its place; the output of `W` goes there. Each letter takes other buffers.
fn answer_case<R: Read, W: Write>(
    letter: u8,
    driver: &mut Driver<R, W>,
    memory: &mut Memory,
) -> Result<(), Broken> {
    let Memory {
        model,
        numbers,
        texts,
    } = memory;
    if letter == b'W' {
        return driver.write(numbers, texts, model);
    }
    let model = driver.input.field(model)?;
    match letter {
        b'V' => driver.judge(model),
        b'M' => driver.match_name(model)?,
        b'S' => driver.sign(model)?,
        b'P' => driver.follow(model)?,
        b'C' => driver.suggest(model, texts)?,
        b'D' => driver.describe(model, numbers, texts)?,
        b'E' => driver.compare(model, texts)?,
        _ => return Err(Broken),
    }
    Ok(())
}
