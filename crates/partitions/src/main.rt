// Reads many files of blocks: standard input holds them one after the other, each with the calls on it, laid out as
// compare/src/bin/partitions.rs says. Each answer is written as a line. The expected output comes from compare/.
#![tactic(auto)]

ghost use Rattle.std.specs.Prelude.{◌≤◌, length};

use blocks::Fetched;
use input::LARGE_BUFFER;
use std::io;
use std::io::{Read, Write};

// The bytes of a call, and of the head of a file.
const CALL: usize = 8;

const HEAD: usize = 4;

// Which call is made: 0 is a fetch.
enum Call {
    Fetch,
    Part,
}

impl From<u8> for Call {
    fn from(byte: u8) -> Call {
        if byte == 0 { Call::Fetch } else { Call::Part }
    }
}

// The lent table holds the successors of a byte before the call.
fn run_fetch<W: Write>(
    writer: &mut W,
    file: &[u8],
    program: u16,
    first: u8,
    table: &mut [u8],
) -> io::Result<()> {
    output::fill(table, first);
    match blocks::fetch(file, program, table) {
        Ok(
            Fetched {
                length,
                edition,
                parts,
            },
        ) => {
            writer.write_all(b"done")?;
            write!(writer, " {length} {edition} {parts}")?;
            output::write_hex(writer, &table[..length])?;
            let past = &table[length..];
            let is_same = output::is_filled(past, output::byte_before(length, first));
            output::end_line(writer, is_same)
        }
        Err(refusal) => {
            output::write_refusal(writer, refusal.check as u8, refusal.node)?;
            output::end_line(writer, output::is_filled(table, first))
        }
    }
}

fn run_part<W: Write>(
    writer: &mut W,
    file: &[u8],
    program: u16,
    edition: u16,
    number: u8,
) -> io::Result<()> {
    let span = blocks::locate(file, program, edition, number);
    writer.write_all(b"part")?;
    write!(writer, " {} {}", span.from, span.length)?;
    output::write_hex(writer, blocks::part(file, program, edition, number))?;
    writeln!(writer)
}

// Runs a call.
fn run_call<W: Write>(
    writer: &mut W,
    file: &[u8],
    call: &[u8; CALL],
    table: &mut [u8],
) -> io::Result<()> {
    let program = input::word_at(call, 1);
    match Call::from(call[0]) {
        Call::Fetch => run_fetch(writer, file, program, call[1], table),
        Call::Part => run_part(writer, file, program, input::word_at(call, 3), call[5]),
    }
}

// Reads the next call on a file and runs it.
fn run_next<R: Read, W: Write>(reader: &mut R, writer: &mut W, file: &[u8]) -> io::Result<()> {
    let mut call = [0u8; CALL];
    input::read_full(reader, &mut call)?;
    let mut table = [0u8; LARGE_BUFFER];
    run_call(
        writer,
        file,
        &call,
        &mut table[..input::length_at(&call, 6)],
    )
}

// Reads the next file and runs the calls on it.
fn run_file<R: Read, W: Write>(reader: &mut R, writer: &mut W) -> io::Result<()> {
    let mut head = [0u8; HEAD];
    input::read_full(reader, &mut head)?;
    let mut buffer = [0u8; LARGE_BUFFER];
    let file = &mut buffer[..input::length_at(&head, 0)];
    input::read_full(reader, file)?;
    for _ in 0..input::length_at(&head, 2) {
        run_next(reader, writer, file)?;
    }
    Ok(())
}

fn main(rt: HostRuntime) {
    let mut reader = rt.stdin();
    let mut writer = rt.stdout();
    input::for_each_case(|| run_file(&mut reader, &mut writer));
}
