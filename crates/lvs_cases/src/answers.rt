//! A method for each letter: it takes the fields behind the first, makes the call and puts the line.
use crate::input::{Broken, CaseReader};
use crate::output::{AnswerWriter, Hex, Listed};
use lvs::{Match, Pair};
use lvs_codec::Lengths;
use lvs_names::Component;
use lvs_spec::refusal::Refusal;
use std::io::{Read, Write};

/// The longest name.
const NAME_BYTES: usize = 4096;

/// The longest list of binding words, and the longest path.
const WORDS: usize = 1024;

const PATH: usize = 2048;

/// Where cases come from, and where their lines go.
#[derive(Drop)]
pub struct Driver<R, W> {
    pub input: CaseReader<R>,
    pub out: AnswerWriter<W>,
}

impl<R: Read, W: Write> Driver<R, W> {
    /// `V`: the verdict on a model.
    pub fn judge(&mut self, model: &[u8]) {
        match lvs_verdict::judge_model(model) {
            Ok(nodes) => self.out.put(format_args!("accepted {nodes}")),
            Err(refusal) => self.put_refused(refusal),
        }
        self.out.put("\n");
    }

    /// `M`: the node that a name leads to, and the words of the Tags that are bound on the way.
    pub fn match_name(&mut self, model: &[u8]) -> Result<(), Broken> {
        let mut name = [0; NAME_BYTES];
        let mut words = [0; WORDS];
        let name = self.input.field(&mut name)?;
        let words = self.input.numbers(&mut words)?;
        match lvs::match_name(model, name, words) {
            Ok(Some(Match { node, bound })) => self.out.put(format_args!("match {node} {bound}")),
            Ok(None) => self.out.put("no match"),
            Err(refusal) => self.put_refused(refusal),
        }
        self.out.put(format_args!("{}\n", Listed(words)));
        Ok(())
    }

    /// `S`: whether a key name may sign a packet name, with bindings and path.
    pub fn sign(&mut self, model: &[u8]) -> Result<(), Broken> {
        let mut packet = [0; NAME_BYTES];
        let mut key = [0; NAME_BYTES];
        let mut words = [0; WORDS];
        let mut path = [0; PATH];
        let packet = self.input.field(&mut packet)?;
        let key = self.input.field(&mut key)?;
        let words = self.input.numbers(&mut words)?;
        let path = self.input.numbers(&mut path)?;
        match lvs::sign(model, packet, key, words, path) {
            Ok(Some(Pair { packet, key })) => self.out.put(format_args!("allowed {packet} {key}")),
            Ok(None) => self.out.put("not allowed"),
            Err(refusal) => self.put_refused(refusal),
        }
        self.out
            .put(format_args!("{}{}\n", Listed(words), Listed(path)));
        Ok(())
    }

    /// `P`: whether a path shows that a key name may sign a packet name.
    pub fn follow(&mut self, model: &[u8]) -> Result<(), Broken> {
        let mut packet = [0; NAME_BYTES];
        let mut key = [0; NAME_BYTES];
        let mut path = [0; PATH];
        let packet = self.input.field(&mut packet)?;
        let key = self.input.field(&mut key)?;
        let path = self.input.numbers(&mut path)?;
        match lvs_follow::follow(model, packet, key, path) {
            Ok(true) => self.out.put("accepted"),
            Ok(false) => self.out.put("no"),
            Err(refusal) => self.put_refused(refusal),
        }
        self.out.put("\n");
        Ok(())
    }

    /// `C`: which certificate of a list may sign a packet name. `list` is lent for the bytes of the list.
    pub fn suggest(&mut self, model: &[u8], list: &mut [u8]) -> Result<(), Broken> {
        let mut packet = [0; NAME_BYTES];
        let packet = self.input.field(&mut packet)?;
        let list = self.input.field(list)?;
        match lvs::suggest(model, packet, list) {
            Ok(Some(index)) => self.out.put(format_args!("certificate {index}")),
            Ok(None) => self.out.put("none"),
            Err(refusal) => self.put_refused(refusal),
        }
        self.out.put("\n");
        Ok(())
    }

    /// `W`: a model written from its description. It has no model before its fields.
    pub fn write(
        &mut self,
        numbers: &mut [u64],
        texts: &mut [u8],
        output: &mut [u8],
    ) -> Result<(), Broken> {
        let numbers = self.input.numbers(numbers)?;
        let texts = self.input.field(texts)?;
        let output = self.input.field(output)?;
        match lvs_codec::write_model(numbers, texts, output) {
            Ok(size) => self.out.put(format_args!("written {size}")),
            Err(refusal) => self.put_refused(refusal),
        }
        self.out.put(format_args!("{}\n", Hex(output)));
        Ok(())
    }

    /// `D`: the description of a model.
    pub fn describe(
        &mut self,
        model: &[u8],
        numbers: &mut [u64],
        texts: &mut [u8],
    ) -> Result<(), Broken> {
        let numbers = self.input.numbers(numbers)?;
        let texts = self.input.field(texts)?;
        match lvs_codec::describe_model(model, numbers, texts) {
            Ok(Lengths { numbers, texts }) => {
                self.out.put(format_args!("described {numbers} {texts}"));
            }
            Err(refusal) => self.put_refused(refusal),
        }
        self.out
            .put(format_args!("{}{}\n", Listed(numbers), Hex(texts)));
        Ok(())
    }

    /// `E`: two components compared, and how many bytes of their values were looked at.
    pub fn compare(&mut self, first: &[u8], second: &mut [u8]) -> Result<(), Broken> {
        let second = self.input.field(second)?;
        let first = component_of(first).ok_or(Broken)?;
        let second = component_of(second).ok_or(Broken)?;
        let compared = lvs_names::compare(first.bytes, second);
        let looked = compared.looked;
        if compared.equal {
            self.out.put(format_args!("equal {looked}\n"));
        } else {
            self.out.put(format_args!("different {looked}\n"));
        }
        Ok(())
    }

    fn put_refused(&mut self, refusal: Refusal) {
        self.out.put(format_args!("refused {} {}", refusal.number(), refusal.at()));
    }
}

/// The component that `s` is, where it is one and no more.
fn component_of(s: &[u8]) -> Option<Component<'_>> {
    let component = lvs_names::component_at(s, 0)?;
    let typ = lvs_names::read_component(s).typ;
    if component.bytes.len() == s.len() && typ <= lvs_spec::MAX_COMPONENT_TYPE {
        Some(component)
    } else {
        None
    }
}
