// Narrows the start sets of many tables: standard input holds them with their ties one after the other, laid out as
// compare/src/bin/narrowings.rs says. Each answer is written as a line, with the sets. The expected output comes from compare/.
#![tactic(auto)]

use input::LARGE_BUFFER;
use std::io;
use std::io::{Read, Write};

// The bytes of the head of a case, and the most sets that are lent.
const HEAD: usize = 6;

const SETS: usize = 2048;

// What an entry of the lent sets is before the call: no two are the same.
fn set_before(at: usize) -> u64 {
    u64::MAX - at as u64
}

// The number of nodes, and the sets of so many.
fn write_done<W: Write>(writer: &mut W, sets: &[u64], nodes: usize) -> io::Result<()> {
    writer.write_all(b"done")?;
    write!(writer, " {nodes}")?;
    for set in sets.iter().take(nodes) {
        write!(writer, " {set}")?;
    }
    Ok(())
}

// Reads the bytes that follow the head, makes the call and writes what it came to.
fn run_case<R: Read, W: Write>(
    reader: &mut R,
    writer: &mut W,
    table: &mut [u8],
    ties: &mut [u8],
    sets: &mut [u64],
) -> io::Result<()> {
    input::read_full(reader, table)?;
    input::read_full(reader, ties)?;
    output::fill_with(sets, |at| set_before(at));
    let written = match tied::narrow(table, ties, sets) {
        Ok(nodes) => {
            write_done(writer, sets, nodes)?;
            nodes
        }
        Err(refusal) => {
            output::write_refusal(writer, refusal.check as u8, refusal.node)?;
            0
        }
    };
    output::end_line(
        writer,
        output::is_filled_with(sets, written, |at| set_before(at)),
    )
}

// Runs the next case.
fn run_next<R: Read, W: Write>(reader: &mut R, writer: &mut W) -> io::Result<()> {
    let mut head = [0u8; HEAD];
    input::read_full(reader, &mut head)?;
    let mut table = [0u8; LARGE_BUFFER];
    let mut ties = [0u8; LARGE_BUFFER];
    let mut sets = [0u64; SETS];
    let Some(lent) = sets.get_mut(..input::length_at(&head, 4)) else {
        return Err(io::ErrorKind::InvalidData.into());
    };
    run_case(
        reader,
        writer,
        &mut table[..input::length_at(&head, 0)],
        &mut ties[..input::length_at(&head, 2)],
        lent,
    )
}

fn main(rt: HostRuntime) {
    let mut reader = rt.stdin();
    let mut writer = rt.stdout();
    input::for_each_case(|| run_next(&mut reader, &mut writer));
}
