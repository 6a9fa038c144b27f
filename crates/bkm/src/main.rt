// Answers a sheet: standard input to standard output.
#![tactic(auto)]

ghost use Rattle.std.specs.Prelude.{◌≡◌, ◌≤◌, length, IfOk, OnErr};
ghost use Rattle.text.specs.Answer.{answer_room};
ghost use Rattle.stream.specs.Machine.{cut, place_after};
ghost use Rattle.stream.specs.Sheet.{machine, place_of};

use std::env::{Env, FillError};
use std::fmt::Display;
use std::io::{self, ErrorKind, Read};
use std::process::ExitCode;
use stream::Place;

const NO_ARGUMENT: &str =
    "bkm: reads a sheet on standard input and takes no argument, as in: bkm < SHEET";

// What a shell gives as the status of a program that SIGPIPE ended.
const READER_GONE: u8 = 141;

// Which of the streams failed, and how.
#[derive(Drop)]
enum Failure {
    Input(io::Error),
    Output(io::Error),
}

// Whether the program was started with an argument.
fn has_argument(rt: &impl Env) -> bool {
    !matches!(rt.arg(1, &mut []), Err(FillError::NotPresent))
}

// The system's words for an error, without the number that std puts behind them.
fn words(said: &str) -> &str {
    match said.split_once(" (os error ") {
        Some((words, _)) => words,
        None => said,
    }
}

// Says on standard error what failed. Where that cannot be written, there is nobody to tell.
fn tell(rt: &(impl Eprint + Alloc), stream: &str, error: io::Error) {
    let _ = match error.to_string(rt.alloc()) {
        Ok(said) => {
            let why = words(said.as_str());
            eprintln!(rt; "bkm: {stream}: {why}")
        }
        Err(_) => eprintln!(rt; "bkm: {stream}: {error}"),
    };
}

// Feeds all of a block and writes its answers, up to the first that cannot be written. Its only error is that of a write, and then the buffer
// keeps its length, and nothing more is known.
fn answer_block(rt: &impl Print, place: Place, block: &[u8], out: &mut [u8]) -> io::Result<Place>
    requires { answer_room ≤ length out.old }
    ensures answered { IfOk result (λ p. cut (place_of p) ≡ cut (place_after machine (place_of place) block.now)) }
    ensures unwritten { OnErr result (length out.new ≡ length out.old) }
{
    let mut here = place;
    let mut rest = block;
    while !rest.is_empty() {
        let fed = stream::feed(here, rest, out);
        rt.write_all(&out[..fed.written])?;
        here = fed.place;
        rest = &rest[fed.read..];
    }
    Ok(here)
}

// Writes the heading, then reads standard input to its end, and answers each block before it reads the next.
fn answer_sheet(rt: &HostRuntime) -> Result<(), Failure> {
    let mut block = [0u8; 65536];
    let mut out = [0u8; 65536];
    let n = stream::open(&mut out);
    rt.write_all(&out[..n]).map_err(Failure::Output)?;
    let mut place = stream::empty();
    let mut input = rt.stdin();
    // A proved loop ends, and nothing says that the input does: so many blocks no input has.
    for _ in 0..u64::MAX {
        let n = input.read(&mut block).map_err(Failure::Input)?;
        if n == 0 {
            break;
        }
        place = answer_block(rt, place, &block[..n], &mut out).map_err(Failure::Output)?;
    }
    let n = stream::finish(place, &mut out);
    rt.write_all(&out[..n]).map_err(Failure::Output)
}

fn main(rt: HostRuntime) -> ExitCode {
    if has_argument(&rt) {
        let _ = eprintln!(rt; "{NO_ARGUMENT}");
        return ExitCode::SUCCESS;
    }
    match answer_sheet(&rt) {
        Ok(()) => {}
        // the reader has what it wanted, as `head` has
        Err(Failure::Output(error)) if error.kind() == ErrorKind::BrokenPipe => {
            return ExitCode::from(READER_GONE);
        }
        Err(Failure::Output(error)) => tell(&rt, "standard output", error),
        Err(Failure::Input(error)) => tell(&rt, "standard input", error),
    }
    ExitCode::SUCCESS
}
