//! Answers signing requests by the model in `model.lvs` (docs/format.md, 10).
//!
//! A request on standard input is the mark 4D 4B, then a 2-byte length (high byte first) and the packet name, then such a length and the
//! key name. Each gets one line. Nothing is read ahead, so that an answer is written as soon as its request is complete.
#![tactic(auto)]

ghost use Rattle.std.specs.Prelude.{◌≤◌, length, IfOk, IfSome, IsTrue};
ghost use Rattle.std.specs.Int.{to_be_bytes, w16};
ghost use Rattle.std.specs.Io.KnownBytes.{Consumes};
ghost use Rattle.lvs_check.specs.Request.{name_of, request_of};

use lvs::Pair;
use std::fmt::Display;
use std::fs::File;
use std::io;
use std::io::Read;
use std::rt::Files;

/// One byte more than a model may have: of a longer file the library refuses the length.
const MODEL_BYTES: usize = 32769;

const NAME_BYTES: usize = 2048;

const LAST_REQUEST: u64 = 65535;

const MARK: [u8; 2] = [0x4D, 0x4B];

/// A name, where there is room for the longest that is read.
type NameSpace = [u8; NAME_BYTES];

struct Request<'a> {
    packet: &'a [u8],
    key: &'a [u8],
}

/// Why a request has no answer: it is cut, another mark stands before it, or a name has no room.
#[derive(Clone, Copy)]
struct Broken;

/// A read that fails ends the input.
impl From<io::Error> for Broken {
    fn from(_e: io::Error) -> Broken {
        Broken
    }
}

fn main(rt: HostRuntime) {
    let mut space = [0; MODEL_BYTES];
    let model = read_model(&rt, &mut space);
    match lvs_verdict::judge_model(model) {
        Err(refusal) => {
            let (number, at) = (refusal.number(), refusal.at());
            put_line(&rt, format_args!("model refused {number} at {at}"));
        }
        Ok(nodes) => {
            put_line(&rt, format_args!("model {nodes} nodes"));
            // `stdin` has no buffer: what is read is what was asked for
            answer_requests(&rt, &mut rt.stdin(), model);
        }
    }
}

/// What can't be written is lost, and the program goes on.
fn put_line<P: Print, D: Display + Drop>(rt: &P, line: D) {
    let _ = rt.println(line);
}

/// A file that can't be opened counts as empty.
fn read_model<'a, R: Files>(rt: &R, space: &'a mut [u8]) -> &'a [u8]
    ensures { length result.now ≤ length space.old }
{
    match File::open(rt, "model.lvs") {
        Ok(file) => read_all(file, space),
        Err(_) => &[],
    }
}

/// As many bytes as the file has and the space holds. A read that fails ends it, like the end of the file.
fn read_all<'a, R: Read + Drop>(mut file: R, space: &'a mut [u8]) -> &'a [u8]
    ensures { length result.now ≤ length space.old }
{
    let mut done = 0;
    while done < space.len() {
        match file.read(&mut space[done..]) {
            Ok(0) | Err(_) => break,
            Ok(n) => done += n,
        }
    }
    &space[..done]
}

/// A broken request is the last one.
fn answer_requests<P: Print, R: Read>(rt: &P, input: &mut R, model: &[u8]) {
    for k in 1..=LAST_REQUEST {
        let mut packet = [0; NAME_BYTES];
        let mut key = [0; NAME_BYTES];
        match read_request(input, &mut packet, &mut key) {
            Ok(Some(request)) => answer(rt, model, k, request),
            Ok(None) => return,
            Err(Broken) => return put_line(rt, format_args!("{k} broken")),
        }
    }
}

/// The next request; none where the input ends before it. Nothing behind it is read.
fn read_request<'a, R: Read>(
    input: &mut R,
    packet: &'a mut NameSpace,
    key: &'a mut NameSpace,
) -> Result<Option<Request<'a>>, Broken>
    ensures { IfOk result (λ next. IfSome next (λ request.
        Consumes (R.remaining input.old) (R.remaining input.new) (request_of request.packet.now request.key.now))) }
{
    if !read_mark(input)? {
        return Ok(None);
    }
    let packet = read_name(input, packet)?;
    let key = read_name(input, key)?;
    Ok(Some(Request { packet, key }))
}

/// Whether another request begins: false at the end of the input.
fn read_mark<R: Read>(input: &mut R) -> Result<bool, Broken>
    ensures { IfOk result (λ begins. IsTrue begins → Consumes (R.remaining input.old) (R.remaining input.new) MARK) }
{
    let Ok(first) = read_array::<_, 1>(input) else {
        return Ok(false);
    };
    let second = read_array::<_, 1>(input)?;
    if [first[0], second[0]] != MARK {
        return Err(Broken);
    }
    Ok(true)
}

/// Reads a length and a name of that many bytes.
fn read_name<'a, R: Read>(input: &mut R, space: &'a mut NameSpace) -> Result<&'a [u8], Broken>
    ensures room { IfOk result (λ name. length name.now ≤ NAME_BYTES) }
    ensures bytes { IfOk result (λ name. Consumes (R.remaining input.old) (R.remaining input.new) (name_of name.now)) }
{
    let size = usize::from(read_size(input)?);
    let name = space.get_mut(..size).ok_or(Broken)?;
    input.read_exact(name)?;
    Ok(name)
}

fn read_size<R: Read>(input: &mut R) -> Result<u16, Broken>
    ensures { IfOk result (λ n. Consumes (R.remaining input.old) (R.remaining input.new) (to_be_bytes w16 n)) }
{
    Ok(u16::from_be_bytes(read_array(input)?))
}

fn read_array<R: Read, const N: usize>(input: &mut R) -> Result<[u8; N], Broken>
    ensures { IfOk result (λ bytes. Consumes (R.remaining input.old) (R.remaining input.new) bytes) }
{
    let mut bytes = [0; N];
    input.read_exact(&mut bytes)?;
    Ok(bytes)
}

fn answer<P: Print>(rt: &P, model: &[u8], k: u64, request: Request) {
    let mut words = [0; lvs_spec::BINDING_WORDS];
    let mut path = [0; lvs_spec::PATH_WORDS];
    let Request { packet, key } = request;
    match lvs::sign(model, packet, key, &mut words, &mut path) {
        Ok(Some(Pair { packet, key })) => {
            put_line(rt, format_args!("{k} allowed {packet} {key}"));
        }
        Ok(None) => put_line(rt, format_args!("{k} not allowed")),
        Err(refusal) => put_line(rt, format_args!("{k} refused {}", refusal.number())),
    }
}
