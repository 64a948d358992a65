// The one reader of the input, for all programs, over any reader: the programs give it standard input. Its contracts say what is
// made of each read's answer; which bytes the system delivers, and how many, no contract can say, since that of standard input's
// `read` does not. So the gate runs the programs on inputs of many lengths, whole and in pieces (tools/test_input.sh).
#![tactic(auto)]

ghost use Rattle.std.specs.Prelude.{◌≡◌, ◌+◌, ◌*◌, ◌^◌, ◌<◌, ◌≤◌, IfOk, length, slice_index};
ghost use Rattle.input.specs.Reads.{Within, step_of, Reads, Fills};
ghost use Rattle.input.specs.Cases.{RunsCases};

use std::io;
use std::io::Read;

// More bytes than the frames of the smaller tables have, and more than a length in two bytes can tell: buffers to read into.
pub const BUFFER: usize = 4096;

pub const LARGE_BUFFER: usize = 65536;

// Where reading stands after a read: behind so many bytes, or it is over and answers this. It is public for `step_of` and `Reads`, which
// other crates can cite.
#[derive(Drop)]
pub enum Progress<E> {
    On { done: usize },
    Over { answer: Result<usize, E> },
}

// What a read makes of the bytes done: where none came, the input has ended. It stands by itself for its clause: that of `read` asks only
// that some read's answer has led to its own.
fn step(done: usize, piece: io::Result<usize>) -> Progress<io::Error>
    requires { IfOk piece (λ came. done + came < 2 ^ 64) }
    ensures { result ≡ step_of done piece }
{
    match piece {
        Ok(0) => Progress::Over { answer: Ok(done) },
        Ok(came) => Progress::On { done: done + came },
        Err(e) => Progress::Over { answer: Err(e) },
    }
}

// Reads until the buffer is full or the input ends, in as many pieces as it comes.
pub fn read<R: Read>(reader: &mut R, buffer: &mut [u8]) -> io::Result<usize>
    ensures { Reads 0 buffer.old buffer.new result }
{
    let mut done = 0;
    while done < buffer.len() {
        match step(done, reader.read(&mut buffer[done..])) {
            Progress::On { done: behind } => done = behind,
            Progress::Over { answer } => return answer,
        }
    }
    Ok(done)
}

// Fills the buffer, or fails where a read does or the input ends before.
pub fn read_full<R: Read>(reader: &mut R, buffer: &mut [u8]) -> io::Result<()>
    ensures { Fills buffer.old buffer.new result }
{
    if read(reader, buffer)? < buffer.len() {
        return Err(io::ErrorKind::UnexpectedEof.into());
    }
    Ok(())
}

// A number in two bytes, lowest first.
pub fn word_at(head: &[u8], at: usize) -> u16
    requires { at + 1 < length head.now }
    ensures { result ≡ slice_index head.now at + 256 * slice_index head.now (at + 1) }
{
    u16::from_le_bytes([head[at], head[at + 1]])
}

// A length in two bytes, lowest first.
pub fn length_at(head: &[u8], at: usize) -> usize
    requires { at + 1 < length head.now }
    ensures { result ≤ 65535 }
{
    usize::from(word_at(head, at))
}

// A number in eight bytes, lowest first.
pub fn number_at(head: &[u8], at: usize) -> usize
    requires { at + 7 < length head.now }
{
    let mut bytes = [0u8; 8];
    bytes.copy_from_slice(&head[at..at + 8]);
    usize::from_le_bytes(bytes)
}

// Reads a length and then as many bytes, to the buffer's front. It fails where the input ends before, or they do not fit.
pub fn read_counted<R: Read>(reader: &mut R, buffer: &mut [u8]) -> io::Result<usize>
    ensures { Within result (length buffer.new) }
{
    let mut head = [0u8; 2];
    read_full(reader, &mut head)?;
    let length = length_at(&head, 0);
    if buffer.len() < length {
        return Err(io::ErrorKind::InvalidData.into());
    }
    read_full(reader, &mut buffer[..length])?;
    Ok(length)
}

// More cases than the input of any test program has.
const CASES: usize = 65536;

// Runs the input's cases one after the other, until one fails: where the input ends, or cannot be read or answered. A proved loop
// has to end, so there is a bound. Tried, and the proof didn't close: one function for the six mains that give their `run_next` both
// ends of the program. That a closure over the caller's closure may always be called stayed open.
pub fn for_each_case<F: FnMut() -> io::Result<()>>(mut run_next: F)
    requires { F.IsAlwaysCallable run_next }
    ensures { RunsCases F.step CASES run_next }
{
    for _ in 0..CASES {
        if run_next().is_err() {
            return;
        }
    }
}
