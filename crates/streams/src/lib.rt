// A command sheet from one reader, its results to one writer: what the programs over the runner share. The functions
// here only move bytes; `runner::run_sheet` does the work. What a file or a terminal gives and takes no contract can
// say; the clauses here speak of readers and writers whose bytes are known, as those over memory.
#![tactic(auto)]

ghost use Rattle.std.specs.Prelude.{◌≡◌, ◌+◌, ◌<◌, ◌≤◌, length, take, drop, IfOk, IfErr, OnOk, IfSome};
ghost use Rattle.std.specs.Io.KnownBytes.{Appends, Consumes, Keeps, ReadConsumes};
ghost use Rattle.streams.specs.Failure.{IsNotRead};
ghost use Rattle.text.specs.Results.{results as results_spec};

use std::error::Error;
use std::io::{Read, Write};
use std::{fmt, io};

// Why the results of a sheet were not all written. A sheet that cannot be read has none.
#[derive(Clone, Copy, Debug)]
pub enum Failure {
    NotRead(io::Error),
    NotWritten(io::Error),
}

impl fmt::Display for Failure {
    fn fmt<W: fmt::Write>(&self, f: &mut fmt::Formatter<W>) -> fmt::Result {
        match self {
            Failure::NotRead(e) => write!(f, "the sheet cannot be read: {e}"),
            Failure::NotWritten(e) => write!(f, "the results cannot be written: {e}"),
        }
    }
}

impl Error for Failure {}

// One read, into the buffer from `start` on: how many bytes came.
fn read_from<R: Read>(input: &mut R, buffer: &mut [u8], start: usize) -> io::Result<usize>
    requires { start ≤ length buffer.old }
    ensures in_bounds { IfOk result (λ count. start + count ≤ length buffer.new) }
    ensures before { take start buffer.new ≡ take start buffer.old }
    ensures bytes { ReadConsumes (R.remaining input.old) (R.remaining input.new) result (drop start buffer.new) }
{
    input.read(&mut buffer[start..])
}

// Reads until the buffer is full, the input ends or a read fails: how many bytes came.
fn read_until_full<R: Read>(input: &mut R, buffer: &mut [u8]) -> io::Result<usize>
    ensures in_bounds { IfOk result (λ count. count ≤ length buffer.new) }
    ensures bytes { IfOk result (λ count.
        Consumes (R.remaining input.old) (R.remaining input.new) (take count buffer.new)) }
    ensures front { IfOk result (λ count. IfSome (R.remaining input.old) (λ known.
        take count buffer.new ≡ take (length buffer.new) known)) }
{
    let mut count = 0;
    while count < buffer.len() {
        let more = read_from(input, buffer, count)?;
        if more == 0 {
            return Ok(count);
        }
        count += more;
    }
    Ok(count)
}

// Puts the results of a sheet at the front of the buffer, which has room for those of every sheet, and returns their
// length.
fn results_of(sheet: &[u8], out: &mut [u8]) -> usize
    requires { 138309 ≤ length out.old }
    ensures upper_bound { result ≤ length out.new }
    ensures out_after { take result out.new ≡ results_spec sheet.now }
{
    runner::run_sheet(sheet, out)
}

// The results of a sheet to a writer. The buffer stands here alone, so that it is zeroed once.
fn write_results_of<W: Write>(sheet: &[u8], output: &mut W) -> io::Result<()>
    ensures { OnOk result (Appends (W.contents output.old) (W.contents output.new) (results_spec sheet.now)) }
{
    let mut results = [0u8; 138309];
    let length = results_of(sheet, &mut results);
    output.write_all(&results[..length])
}

// Runs the sheet that a reader gives, and writes its results to a writer. No more is read than number 1 needs.
pub fn write_results<R: Read, W: Write>(input: &mut R, output: &mut W) -> Result<(), Failure>
    ensures written { OnOk result (IfSome (R.remaining input.old) (λ sheet.
        Appends (W.contents output.old) (W.contents output.new) (results_spec sheet))) }
    ensures read { OnOk result (IfSome (R.remaining input.old) (λ sheet.
        Consumes (R.remaining input.old) (R.remaining input.new) (take 65537 sheet))) }
    ensures unread { IfErr result (λ failure.
        IsNotRead failure → Keeps (W.contents output.old) (W.contents output.new)) }
{
    let mut sheet = [0u8; 65537];
    let count = read_until_full(input, &mut sheet).map_err(Failure::NotRead)?;
    write_results_of(&sheet[..count], output).map_err(Failure::NotWritten)?;
    Ok(())
}

// The same, where a failure is not silent: standard error says what failed. The error is standard error's own.
pub fn run<R: Read, W: Write>(rt: &impl Eprint, input: &mut R, output: &mut W) -> io::Result<()> {
    match write_results(input, output) {
        Ok(()) => Ok(()),
        Err(failure) => eprintln!(rt; "{failure}"),
    }
}
