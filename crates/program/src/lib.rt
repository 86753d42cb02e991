// What the program does with the bytes it has read.
#![tactic(auto)]

ghost use Rattle.std.specs.Prelude.{◌≡◌, length, OnOk};
ghost use Rattle.std.specs.Io.KnownBytes.{Appends};
ghost use Rattle.rules.specs.Lists.{padded};
ghost use Rattle.rules.specs.Refusals.{refusal_number};
ghost use Rattle.rules.specs.Services.{refused_line, written};
ghost use Rattle.program.specs.Program.{line_bytes, line_of, program_answer, program_buffer, written_with};

use finals::final_records;
use rewriter::rewrite;
use rules::{Refusal, RewritingAnswer};
use std::io;
use std::io::Write;

// The largest input and the output, in bytes, and the size of a pointer.
pub const PROGRAM_INPUT: usize = 32768;

pub const PROGRAM_OUTPUT: usize = 65536;

const PROGRAM_POINTER: u32 = 8;

// A line of text: the first bytes of an array, with zeros behind them.
#[derive(Clone, Copy)]
pub struct Line {
    pub bytes: [u8; 16],
    pub count: usize,
}

// The answer for an input, with what is written to the output: 3 at once where the input is too long, else rewriting's.
pub fn respond(s: &[u8], out: &mut [u8]) -> Result<RewritingAnswer, Refusal>
    ensures answer { result ≡ program_answer s.now (length out.old) }
    ensures output { out.new ≡ program_buffer s.now (length out.old) }
{
    if s.len() > PROGRAM_INPUT {
        out.fill(0);
        return Err(Refusal::TooMany);
    }
    rewrite(s, PROGRAM_POINTER, out)
}

// The line that says which refusal was given.
pub fn refused_line(refusal: Refusal) -> Line
    ensures { (result.bytes ≡ padded line_bytes (refused_line (refusal_number refusal))) × (result.count ≡ length (refused_line (refusal_number refusal))) }
{
    let n = u32::from(refusal);
    let mut bytes = *b"refused \0\0\0\0\0\0\0\0";
    if n < 10 {
        bytes[8] = 48 + (n % 10) as u8;
        bytes[9] = 10;
        return Line { bytes, count: 10 };
    }
    bytes[8] = 48 + (n / 10 % 10) as u8;
    bytes[9] = 48 + (n % 10) as u8;
    bytes[10] = 10;
    Line { bytes, count: 11 }
}

// The line of an answer: none where it is not refused.
fn line_of(answer: Result<RewritingAnswer, Refusal>) -> Line
    ensures { (result.bytes ≡ padded line_bytes (line_of answer)) × (result.count ≡ length (line_of answer)) }
{
    match answer {
        Ok(_) => Line {
            bytes: [0; 16],
            count: 0,
        },
        Err(refusal) => refused_line(refusal),
    }
}

// What is written for an answer: the final records, or the line where it is a refusal.
pub fn to_write<'a>(
    answer: Result<RewritingAnswer, Refusal>,
    input: &'a [u8],
    output: &'a [u8],
    line: &'a [u8],
) -> &'a [u8]
    ensures { result.now ≡ written_with answer input.now output.now line.now }
{
    match answer {
        Ok(_) => final_records(answer, input, output),
        Err(_) => line,
    }
}

// Writes what the program writes for an answer, by one call of the writer, so that no line is written in pieces.
pub fn write_answer<W: Write>(
    writer: &mut W,
    answer: Result<RewritingAnswer, Refusal>,
    input: &[u8],
    output: &[u8],
) -> io::Result<()>
    ensures { OnOk result (Appends (W.contents writer.old) (W.contents writer.new) (written answer input.now output.now)) }
{
    let line = line_of(answer);
    writer.write_all(to_write(answer, input, output, &line.bytes[..line.count]))
}
