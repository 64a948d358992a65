// Runs many instants: standard input holds the calls one after the other, laid out as compare/src/bin/instants.rs says. Each
// answer is written as a line, with both buffers as they are after the call. The expected output comes from compare/.
#![tactic(auto)]

use esterel::Refusal;
use input::LARGE_BUFFER;
use instant::Reaction;
use std::io;
use std::io::{Read, Write};

// The bytes of the head of a call: which one it is, the lengths of the buffers, and the first byte of the emissions before it.
const HEAD: usize = 10;

// Which call is made: 0 is a start.
enum Call {
    Start,
    Resume,
}

impl From<u8> for Call {
    fn from(byte: u8) -> Call {
        if byte == 0 { Call::Start } else { Call::Resume }
    }
}

fn react(
    call: Call,
    table: &[u8],
    answers: &[u8],
    state: &mut [u8],
    emissions: &mut [u8],
) -> Result<Reaction, Refusal> {
    match call {
        Call::Start => instant::start(table, answers, state, emissions),
        Call::Resume => instant::resume(table, answers, state, emissions),
    }
}

// Writes the emission buffer: that it is as it was, or each byte that is not 0, behind its place.
fn write_emissions<W: Write>(writer: &mut W, bytes: &[u8], first: u8) -> io::Result<()> {
    if output::is_filled(bytes, first) {
        return write!(writer, " =");
    }
    for (at, byte) in bytes.iter().enumerate() {
        if *byte != 0 {
            write!(writer, " {at}:{byte:02x}")?;
        }
    }
    Ok(())
}

fn write_answer<W: Write>(writer: &mut W, answer: Result<Reaction, Refusal>) -> io::Result<()> {
    match answer {
        Ok(
            Reaction {
                code,
                taken,
                entries,
            },
        ) => {
            writer.write_all(b"closed")?;
            write!(writer, " {code} {taken} {entries}")
        }
        Err(refusal) => output::write_refusal(writer, refusal.check as u8, refusal.node),
    }
}

// Reads the bytes that follow the head, runs the call and writes what it came to.
fn run_call<R: Read, W: Write>(
    reader: &mut R,
    writer: &mut W,
    head: &[u8; HEAD],
    table: &mut [u8],
    answers: &mut [u8],
    state: &mut [u8],
    emissions: &mut [u8],
) -> io::Result<()> {
    input::read_full(reader, table)?;
    input::read_full(reader, answers)?;
    input::read_full(reader, state)?;
    output::fill(emissions, head[9]);
    let answer = react(head[0].into(), table, answers, state, emissions);
    write_answer(writer, answer)?;
    output::write_hex(writer, state)?;
    write_emissions(writer, emissions, head[9])?;
    writeln!(writer)
}

// Runs the next call.
fn run_next<R: Read, W: Write>(reader: &mut R, writer: &mut W) -> io::Result<()> {
    let mut head = [0u8; HEAD];
    input::read_full(reader, &mut head)?;
    let mut table = [0u8; LARGE_BUFFER];
    let mut answers = [0u8; LARGE_BUFFER];
    let mut state = [0u8; LARGE_BUFFER];
    let mut emissions = [0u8; LARGE_BUFFER];
    run_call(
        reader,
        writer,
        &head,
        &mut table[..input::length_at(&head, 1)],
        &mut answers[..input::length_at(&head, 3)],
        &mut state[..input::length_at(&head, 5)],
        &mut emissions[..input::length_at(&head, 7)],
    )
}

fn main(rt: HostRuntime) {
    let mut reader = rt.stdin();
    let mut writer = rt.stdout();
    input::for_each_case(|| run_next(&mut reader, &mut writer));
}
