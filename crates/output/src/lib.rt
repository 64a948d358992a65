// What programs share in their output: how a test program fills a buffer before it lends it, how it writes bytes, refusals and whether
// the buffer changed, and what a program says on standard error where it could not read or write.
#![tactic(auto)]

ghost use Rattle.std.specs.Prelude.{◌≡◌, ◌+◌, ◌%◌, ◌<◌, OnOk};
ghost use Rattle.std.specs.Io.KnownBytes.{Appends};
ghost use Rattle.output.specs.Lines.{line_end};

use std::io;
use std::io::Write;
use std::process::ExitCode;

// What the byte at a place of a buffer is before the call: each is the successor of the one before it.
pub fn byte_before(at: usize, first: u8) -> u8
    ensures { result ≡ (first + at) % 256 }
{
    first.wrapping_add((at % 256) as u8)
}

// Gives each entry of a buffer the value that it has before the call.
pub fn fill_with<T: Copy, F: Fn(usize) -> T>(buffer: &mut [T], before: F)
    requires { F.IsAlwaysCallable before }
{
    for (at, entry) in buffer.iter_mut().enumerate() {
        *entry = before(at);
    }
}

// Whether the entries from a place on are as `fill_with` left them.
pub fn is_filled_with<T: Copy + PartialEq, F: Fn(usize) -> T>(
    buffer: &[T],
    from: usize,
    before: F,
) -> bool
    requires { (f : _) (x : _) → F.pre f x }
{
    buffer
        .iter()
        .enumerate()
        .skip(from)
        .all(|(at, entry)| *entry == before(at))
}

// Fills a buffer of bytes, from this one on.
pub fn fill(bytes: &mut [u8], first: u8) {
    fill_with(bytes, |at| byte_before(at, first));
}

// Whether the buffer is as `fill` left it. `is_filled_with` was tried: it looks at one byte at a time, which takes longer the longer the
// buffer, up to five times at 65,535 bytes.
pub fn is_filled(bytes: &[u8], first: u8) -> bool {
    let mut byte = first;
    for found in bytes {
        if *found != byte {
            return false;
        }
        byte = byte.wrapping_add(1);
    }
    true
}

// The end of a line that tells whether what was lent is as it was.
pub fn end_line<W: Write>(writer: &mut W, is_same: bool) -> io::Result<()>
    ensures { OnOk result (Appends (W.contents writer.old) (W.contents writer.new) (line_end is_same)) }
{
    if is_same {
        writer.write_all(b" =\n")
    } else {
        writer.write_all(b" changed\n")
    }
}

fn digit(four: u8) -> u8
    requires { four < 16 }
{
    if four < 10 {
        b'0' + four
    } else {
        b'a' - 10 + four
    }
}

// The bytes of the text of a field, of which each byte of a buffer takes two.
const TEXT: usize = 4096;

// A space and the bytes in hexadecimal, or a dash for none. It fails where they are too many for the text, which is written at once.
pub fn write_hex<W: Write>(writer: &mut W, bytes: &[u8]) -> io::Result<()> {
    if bytes.is_empty() {
        return writer.write_all(b" -");
    }
    let mut text = [0u8; TEXT];
    if text.len() / 2 < bytes.len() {
        return Err(io::ErrorKind::InvalidInput.into());
    }
    for (digits, byte) in text.chunks_exact_mut(2).zip(bytes) {
        digits[0] = digit(byte / 16);
        digits[1] = digit(byte % 16);
    }
    writer.write_all(b" ")?;
    writer.write_all(&text[..2 * bytes.len()])
}

// The word and the two figures of a refusal, of any number.
pub fn write_refusal<W: Write>(writer: &mut W, number: u8, node: usize) -> io::Result<()> {
    writer.write_all(b"refused")?;
    write!(writer, " {number} {node}")
}

// Says on standard error what could not be done, and the system's reason, and answers the status that the program ends with.
pub fn tell_failure<E: Eprint>(rt: &E, what: &str, reason: Option<io::Error>) -> ExitCode {
    let _ = match reason {
        Some(e) => eprintln!(rt; "{what}: {e}"),
        None => eprintln!(rt; "{what}"),
    };
    ExitCode::FAILURE
}
