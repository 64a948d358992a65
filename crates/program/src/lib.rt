// What the programs do alike that read a table and write a text of it. What they read is `input`'s; this crate only moves bytes.
#![tactic(auto)]

ghost use Rattle.std.specs.Prelude.{◌*◌, ◌^◌, ◌<◌, ◌≤◌, IfOk, length};
ghost use Rattle.esterel.specs.Limits.{max_nodes};
ghost use Rattle.program.specs.Shows.{Shows};

use input::{BUFFER, for_each_case};
use listing::Text;
use std::io;
use std::io::{Read, Write};
use std::marker::PhantomData;
use std::process::ExitCode;

// Reads the input and makes the text of all of it, also where it does not fit in the buffer.
pub fn show_input<const N: usize, T: Text<N>, R: Read>(
    reader: &mut R,
    buffer: &mut [u8],
    text: &mut [u8; N],
) -> io::Result<usize>
    requires { 2 * max_nodes < length buffer.old }
    ensures within { IfOk result (λ end. end ≤ N) }
    ensures shows { Shows T.Said buffer.old buffer.new text.old text.new result }
{
    let read = input::read(reader, buffer)?;
    Ok(T::render(&buffer[..read], text))
}

// A program that shows standard input, of which it reads at most B bytes, in at most N. What it shows its own crate says, in the clauses of
// its method: here no clause could, for `run_program` runs them all.
pub trait Program<const B: usize, const N: usize> {
    fn show<R: Read>(reader: &mut R, buffer: &mut [u8; B], text: &mut [u8; N]) -> io::Result<usize>
        ensures within { IfOk result (λ end. end ≤ N) };
}

// Runs a program, which shows standard input on standard output, and tells by these names which of them could not be read or written.
pub fn run_program<const B: usize, const N: usize, P: Program<B, N>>(
    rt: &HostRuntime,
    source: &str,
    sink: &str,
) -> ExitCode
    requires buffer_size { B < 2 ^ 63 }
    requires size { N < 2 ^ 63 }
{
    let mut buffer = [0u8; B];
    let mut text = [0u8; N];
    match P::show(&mut rt.stdin(), &mut buffer, &mut text) {
        Ok(end) => match rt.stdout().write_all(&text[..end]) {
            Ok(()) => ExitCode::SUCCESS,
            Err(e) => output::tell_failure(rt, sink, Some(e)),
        },
        Err(e) => output::tell_failure(rt, source, Some(e)),
    }
}

// A text as a program, for `run`. `show_input` asks that the buffer have room, and no clause of `Program` does: without room nothing is
// shown. `run` asks for it, so that this never happens there.
struct Shown<T> {
    of: PhantomData<T>,
}

impl<const B: usize, const N: usize, T: Text<N>> Program<B, N> for Shown<T> {
    fn show<R: Read>(reader: &mut R, buffer: &mut [u8; B], text: &mut [u8; N]) -> io::Result<usize>
        ensures within { IfOk result (λ end. end ≤ N) }
        ensures shows { 2 * max_nodes < B → Shows T.Said buffer.old buffer.new text.old text.new result }
    {
        if B <= 2 * esterel::MAX_NODES {
            return Ok(0);
        }
        show_input::<N, T, R>(reader, buffer, text)
    }
}

// A program that shows standard input on standard output, and tells by these names which of them could not be read or written. It reads
// at most B bytes: one more than a table may have decides refusal 1. A program that says in a clause what it shows has `run_program`.
pub fn run<const B: usize, const N: usize, T: Text<N>>(
    rt: &HostRuntime,
    source: &str,
    sink: &str,
) -> ExitCode
    requires room { 2 * max_nodes < B }
    requires buffer_size { B < 2 ^ 63 }
    requires size { N < 2 ^ 63 }
{
    run_program::<B, N, Shown<T>>(rt, source, sink)
}

// Writes the text of the next table.
fn run_case<const N: usize, T: Text<N>, R: Read, W: Write>(
    reader: &mut R,
    writer: &mut W,
    table: &mut [u8; BUFFER],
    text: &mut [u8; N],
) -> io::Result<()> {
    let length = input::read_counted(reader, table)?;
    let end = T::render(&table[..length], text);
    writer.write_all(&text[..end])
}

// Writes the text of each table that standard input holds, one after the other. The buffers are lent to each case as the case before left
// them: no text of this repository reads a byte of them that the case has not written. A table that is longer than its buffer ends the cases.
pub fn run_cases<const N: usize, T: Text<N>>(rt: &HostRuntime)
    requires { N < 2 ^ 63 }
{
    let mut reader = rt.stdin();
    let mut writer = rt.stdout();
    let mut table = [0u8; BUFFER];
    let mut text = [0u8; N];
    for_each_case(|| -> io::Result<()> {
        run_case::<N, T, _, _>(&mut reader, &mut writer, &mut table, &mut text)
    });
}
