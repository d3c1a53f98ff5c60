//! The sheet program: a reservation sheet on standard input, the frame or one refusal on standard output.
#![tactic(auto)]

ghost use Rattle.std.specs.Prelude.{◌≡◌, ℕ, ◌+◌, ◌*◌, ◌<◌, ◌≤◌, length, take, IfOk, IfErr, OnOk, OnErr, IfSome};
ghost use Rattle.std.specs.Io.{ReadsAtMost};
ghost use Rattle.std.specs.Io.KnownBytes.{Appends, Consumes, IsAtEnd, ReadConsumes};
ghost use Rattle.sheets.specs.Sheet.{response};
ghost use Rattle.frame.specs.Streams.{TakesAtMost, AppendsFront, Leaves};

use sheet::{RESPONSE_MOST, SHEET_MOST};
use std::io::{ErrorKind, Read, Write};
use std::process::ExitCode;
use std::{fmt, io};

// Which of the two streams failed, and how.
#[derive(Drop)]
enum Failure {
    Input(io::Error),
    Output(io::Error),
}

impl fmt::Display for Failure {
    fn fmt<W: fmt::Write>(&self, f: &mut fmt::Formatter<W>) -> fmt::Result {
        match self {
            Failure::Input(error) => write!(f, "standard input: {error}"),
            Failure::Output(error) => write!(f, "standard output: {error}"),
        }
    }
}

// Reads once: 0 where the input ends.
fn read_some<R: Read>(input: &mut R, part: &mut [u8]) -> io::Result<usize>
    ensures bound { ReadsAtMost result part.new }
    ensures bytes { ReadConsumes (R.remaining input.old) (R.remaining input.new) result part.new }
{
    input.read(part)
}

// Reads until the buffer is full, the input ends or a read fails, and answers how many bytes it put at the start.
fn fill<R: Read>(input: &mut R, buffer: &mut [u8]) -> io::Result<usize>
    ensures bound { ReadsAtMost result buffer.new }
    ensures bytes { IfOk result (λ n. Consumes (R.remaining input.old) (R.remaining input.new) (take n buffer.new)) }
    ensures end { IfOk result (λ n. n < length buffer.new → IsAtEnd (R.remaining input.new)) }
    ensures most { TakesAtMost (length buffer.old) (R.remaining input.old) (R.remaining input.new) }
{
    // By place, and not by what is left of the buffer: the place is the answer.
    let mut at: usize = 0;
    while at < buffer.len() {
        let n = read_some(input, &mut buffer[at..])?;
        if n == 0 {
            return Ok(at);
        }
        at += n;
    }
    Ok(at)
}

// How often the rest of a sheet that is too long is read, 4,096 bytes at most each time: with the sheet 1 MiB at most.
const REST_READS: u64 = 247;

// Reads what is past the longest sheet, to its end or up to the limit, so that whoever writes a sheet that is a little too long is not
// cut off, and an input without end is.
fn skip_rest<R: Read>(input: &mut R) -> io::Result<()>
    ensures { TakesAtMost (247 * 4096) (R.remaining input.old) (R.remaining input.new) }
{
    let mut rest = [0u8; 4096];
    for _ in 0..REST_READS {
        if read_some(input, &mut rest)? == 0 {
            return Ok(());
        }
    }
    Ok(())
}

// Reads a sheet, and answers how many bytes of it are in the buffer: a sheet that fills it is too long.
fn take_sheet<R: Read>(input: &mut R, buffer: &mut [u8]) -> io::Result<usize>
    requires { 32768 < length buffer.old }
    ensures bound { ReadsAtMost result buffer.new }
    ensures bytes { IfOk result (λ n. IfSome (R.remaining input.old)
        (λ sheet. take n buffer.new ≡ take (length buffer.new) sheet)) }
    ensures most { TakesAtMost (length buffer.old + 247 * 4096) (R.remaining input.old) (R.remaining input.new) }
{
    let n = fill(input, buffer)?;
    if n == buffer.len() {
        skip_rest(input)?;
    }
    Ok(n)
}

// Writes the bytes to their end. std's `write_all` would do, but promises nothing of what a failure leaves.
fn write_whole<W: Write>(output: &mut W, bytes: &[u8]) -> io::Result<()>
    ensures whole { OnOk result (Appends (W.contents output.old) (W.contents output.new) bytes.now) }
    ensures front { OnErr result (AppendsFront (W.contents output.old) (W.contents output.new) bytes.now) }
{
    let mut rest = bytes;
    while !rest.is_empty() {
        let n = output.write(rest)?;
        if n == 0 {
            return Err(io::Error::from(ErrorKind::WriteZero));
        }
        rest = &rest[n..];
    }
    output.flush()
}

// Prints the response to a sheet.
fn answer<W: Write>(output: &mut W, sheet: &[u8]) -> io::Result<()>
    ensures whole { OnOk result (Appends (W.contents output.old) (W.contents output.new) (response sheet.now)) }
    ensures front { OnErr result (AppendsFront (W.contents output.old) (W.contents output.new) (response sheet.now)) }
{
    let mut out = [0u8; RESPONSE_MOST];
    let n = sheet::respond(sheet, &mut out);
    write_whole(output, &out[..n])
}

// Reads a sheet and prints the response to it. The clauses name the bytes of readers and writers that know theirs, as those over memory
// do. Standard input and standard output know none.
fn run<R: Read, W: Write>(input: &mut R, output: &mut W) -> Result<(), Failure>
    ensures whole { OnOk result (IfSome (R.remaining input.old)
        (λ sheet. Appends (W.contents output.old) (W.contents output.new) (response sheet))) }
    ensures most { TakesAtMost (32769 + 247 * 4096) (R.remaining input.old) (R.remaining input.new) }
    ensures left { IfErr result (λ failure. Leaves (R.remaining input.old) (W.contents output.old) (W.contents output.new) failure) }
{
    let mut bytes = [0u8; SHEET_MOST + 1];
    let n = take_sheet(input, &mut bytes).map_err(Failure::Input)?;
    answer(output, &bytes[..n]).map_err(Failure::Output)?;
    Ok(())
}

// Standard error says which stream failed, and the status is then 1.
fn main(rt: HostRuntime) -> ExitCode {
    match run(&mut rt.stdin(), &mut rt.stdout()) {
        Ok(()) => ExitCode::SUCCESS,
        Err(failure) => {
            let _ = eprintln!(rt; "{failure}");
            ExitCode::FAILURE
        }
    }
}
