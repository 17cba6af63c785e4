// Models written from their descriptions, and taken apart into them (docs/format.md, 12): two public calls. Any lists and any bytes have an answer.
#![tactic(auto)]

ghost use Rattle.std.specs.Prelude.{◌≡◌, ◌≤◌, ◌<◌, ◌^◌, length};
ghost use Rattle.lvs_description.specs.Answers.{write_outcome, describe_outcome};
ghost use Rattle.lvs_codec.specs.Answers.{write_answer_of, describe_answer_of, Sized, Answered, AnsweredShort};

pub use lvs_describe::Lengths;
use lvs_spec::MAX_MODEL_BYTES;
use lvs_spec::refusal::Refusal;
use lvs_write::Description;

// The most bytes of a description that is written with little space.
const SMALL: usize = 4096;

// Writes the bytes of a description over the front of a lent output, and answers how many; those behind stay. A refusal keeps all: lists that form
// no description, what the verdict refuses those bytes for, or an output that is too short for them.
pub fn write_model(numbers: &[u64], texts: &[u8], output: &mut [u8]) -> Result<usize, Refusal>
    ensures { record { answer = write_answer_of result; output = output.new } ≡
        write_outcome numbers.now texts.now output.old }
{
    let description = Description { numbers, texts };
    let Some(size) = description.size() else {
        return Err(Refusal::NoDescription);
    };
    if MAX_MODEL_BYTES < size {
        return Err(Refusal::TooLong);
    }
    if size <= SMALL {
        return write_within::<SMALL>(description, size, output);
    }
    write_within::<MAX_MODEL_BYTES>(description, size, output)
}

// The same with space for N bytes: zeroing room for the largest model costs more than a small description does.
fn write_within<const N: usize>(
    description: Description,
    size: usize,
    output: &mut [u8],
) -> Result<usize, Refusal>
    requires sized { Sized description.numbers.now description.texts.now size }
    requires room { (size ≤ N) × (N < 2 ^ 63) }
    ensures { Answered description.entry.numbers.now description.entry.texts.now output.old result output.new }
{
    let mut space = [0u8; N];
    write_with(description, output, &mut space[..size])
}

// The same with space for just the description's bytes.
fn write_with(
    description: Description,
    output: &mut [u8],
    space: &mut [u8],
) -> Result<usize, Refusal>
    requires { Sized description.numbers.now description.texts.now (length space.old) }
    ensures { Answered description.entry.numbers.now description.entry.texts.now output.old result output.new }
{
    let size = space.len();
    if output.len() < size {
        return Err(refuse_short(description, space));
    }
    write_over(description, &mut output[..size], space)
}

// The refusal where the output is too short: the bytes are judged in the space, since what they are refused for comes first.
fn refuse_short(description: Description, space: &mut [u8]) -> Refusal
    requires { Sized description.numbers.now description.texts.now (length space.old) }
    ensures { AnsweredShort description.entry.numbers.now description.entry.texts.now (length space.old) result }
{
    description.write(space);
    match lvs_verdict::judge_model(space) {
        Err(refusal) => refusal,
        Ok(_) => Refusal::ShortOutput,
    }
}

// Writes over a place of just as many bytes and judges them there, so that they are written only once. What stood there is kept in the space, and
// put back after a refusal.
fn write_over(
    description: Description,
    place: &mut [u8],
    space: &mut [u8],
) -> Result<usize, Refusal>
    requires { Sized description.numbers.now description.texts.now (length place.old) × (length space.old ≡ length place.old) }
    ensures { Answered description.entry.numbers.now description.entry.texts.now place.old result place.new }
{
    space.copy_from_slice(place);
    description.write(place);
    match lvs_verdict::judge_model(place) {
        Err(refusal) => {
            place.copy_from_slice(space);
            Err(refusal)
        }
        Ok(_) => Ok(place.len()),
    }
}

// Takes an accepted model apart, over the front of two lent lists, and answers how much of each it takes; what is behind stays. A refusal keeps
// all: what the verdict refuses the model for, or that a list is too short.
pub fn describe_model(
    model: &[u8],
    numbers: &mut [u64],
    texts: &mut [u8],
) -> Result<Lengths, Refusal>
    ensures { record { answer = describe_answer_of result; numbers = numbers.new; texts = texts.new } ≡
        describe_outcome model.now numbers.old texts.old }
{
    lvs_verdict::judge_model(model)?;
    lvs_describe::describe(model, numbers, texts).ok_or(Refusal::NoDescription)
}
