// The listing program: a query and rows from standard input, their listing or the refused line to standard output.
#![tactic(auto)]

ghost use Rattle.std.specs.Prelude.{◌≡◌, ℕ, ◌+◌, ◌≤◌, ◌<◌, List, length, take, IfOk};
ghost use Rattle.io.specs.Counts.{IsPrefixLen};
ghost use Rattle.text.specs.Layout.{most_input};
ghost use Rattle.text.specs.Print.{refused_line};
ghost use Rattle.listing.specs.ProgramText.{most_output, program_text};
ghost use Rattle.listing.specs.ProgramInput.{Brought};

use listing::{MOST_OUTPUT, Refused, list_text};
use std::io::{Read, Result, Write, writer};
use text::{MOST_INPUT, REFUSED_BYTES, put_refused};

// The refused line.
fn refuse(refused: Refused, output: &mut [u8]) -> usize
    requires { (refused.number ≤ 15) × (refused.line ≤ most_input + 2) × (length output.old ≡ most_output) }
    ensures prefix_len { IsPrefixLen result output.new }
    ensures output_after { take result output.new ≡ refused_line refused.number refused.line }
{
    put_refused(output, refused.number as u16, refused.line as u16);
    REFUSED_BYTES
}

// What the program prints for an input, from the output's start on; its length.
fn print(input: &[u8], output: &mut [u8]) -> usize
    requires { length output.old ≡ most_output }
    ensures prefix_len { IsPrefixLen result output.new }
    ensures output_after { take result output.new ≡ program_text input.now }
{
    match list_text(input, output) {
        Ok(n) => n,
        Err(refused) => refuse(refused, output),
    }
}

// What the program prints for the input of which a read brought so many bytes into the buffer. The buffer has one
// byte more than an input may have: a longer one is seen to be too long, and of any other all is there. So the whole
// buffer is handed on, with the count: its length says that it was large enough.
fn answer(buffer: &[u8], read: usize, output: &mut [u8]) -> usize
    requires prefix_len { IsPrefixLen read buffer.now }
    requires room { (most_input < length buffer.now) × (length output.old ≡ most_output) }
    ensures result_len { IsPrefixLen result output.new }
    ensures prints { (input : List ℕ) → Brought input buffer.now read → take result output.new ≡ program_text input }
{
    print(&buffer[..read], output)
}

// Reads until the buffer is full or the input ends. How many bytes there are.
fn read_full<R: Read>(reader: &mut R, buffer: &mut [u8]) -> Result<usize>
    ensures { IfOk result (λ n. IsPrefixLen n buffer.new) }
{
    let mut done = 0;
    // By as many bytes as each read brings, so no range counts them.
    while done < buffer.len() {
        let n = reader.read(&mut buffer[done..])?;
        if n == 0 {
            return Ok(done);
        }
        done += n;
    }
    Ok(done)
}

fn main(rt: HostRuntime) -> Result<()> {
    let mut buffer = [0u8; MOST_INPUT + 1];
    let mut output = [0u8; MOST_OUTPUT];
    let mut reader = rt.reader();
    let read = read_full(&mut reader, &mut buffer)?;
    let size = answer(&buffer, read, &mut output);
    writer(&rt).write_all(&output[..size])
}
