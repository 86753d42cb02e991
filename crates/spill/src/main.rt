// The program: a function file from standard input, rewritten for pointers of 8 bytes, to standard output. A read or a write that fails ends
// it with that error.
#![tactic(auto)]

ghost use Rattle.std.specs.Prelude.{◌≤◌, ◌<◌, length, take, IfOk, IfSome, OnOk};
ghost use Rattle.std.specs.Io.KnownBytes.{Appends, Consumes, IsAtEnd};
ghost use Rattle.rules.specs.Services.{program_writes};

use program::{PROGRAM_INPUT, PROGRAM_OUTPUT, respond, write_answer};
use std::io::{Read, Result, Write};

fn main(rt: HostRuntime) -> Result<()> {
    spill(&mut rt.stdin(), &mut rt.stdout())
}

// Reads a file, and writes what the program writes for it. A reader or a writer whose bytes are not known is the system's.
fn spill<R: Read, W: Write>(reader: &mut R, writer: &mut W) -> Result<()>
    ensures { OnOk result (IfSome (R.remaining reader.old) (λ s. Appends (W.contents writer.old) (W.contents writer.new) (program_writes s))) }
{
    // One byte more than the largest input, so that a longer one is told.
    let mut input: [u8; PROGRAM_INPUT + 1] = [0; PROGRAM_INPUT + 1];
    let mut output: [u8; PROGRAM_OUTPUT] = [0; PROGRAM_OUTPUT];
    let n = read_full(reader, &mut input)?;
    let answer = respond(&input[..n], &mut output);
    write_answer(writer, answer, &input[..n], &output)
}

// Reads until the buffer is full or the input ends, and returns how many bytes it put at the front.
fn read_full<R: Read>(reader: &mut R, buffer: &mut [u8]) -> Result<usize>
    ensures bound { IfOk result (λ n. n ≤ length buffer.new) }
    ensures bytes { IfOk result (λ n. Consumes (R.remaining reader.old) (R.remaining reader.new) (take n buffer.new)) }
    ensures whole { IfOk result (λ n. n < length buffer.new → IsAtEnd (R.remaining reader.new)) }
{
    // The library reads to the end into a `Vec` alone, and this buffer is fixed memory (document 01).
    let mut done = 0;
    while done < buffer.len() {
        let n = reader.read(&mut buffer[done..])?;
        if n == 0 {
            return Ok(done);
        }
        done += n;
    }
    Ok(done)
}
