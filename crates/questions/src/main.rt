// Asks many questions about the nodes of tables: standard input holds them with their tables one after the other, laid out as
// compare/src/bin/questions.rs says. Each answer is written as a line. The expected output comes from compare/.
#![tactic(auto)]

use input::LARGE_BUFFER;
use std::io;
use std::io::{Read, Write};

// The bytes of the head of a case: the table's length, the node and the code.
const HEAD: usize = 18;

// Reads the table that follows the head, asks, and writes what came of it.
fn run_case<R: Read, W: Write>(
    reader: &mut R,
    writer: &mut W,
    table: &mut [u8],
    node: usize,
    code: usize,
) -> io::Result<()> {
    input::read_full(reader, table)?;
    match question::ask(table, node, code) {
        Ok(asked) => {
            writer.write_all(b"known")?;
            writeln!(writer, " {} {}", u8::from(asked.answer), asked.count)
        }
        Err(refusal) => {
            output::write_refusal(writer, refusal.check as u8, refusal.node)?;
            writeln!(writer)
        }
    }
}

// Runs the next case.
fn run_next<R: Read, W: Write>(reader: &mut R, writer: &mut W) -> io::Result<()> {
    let mut head = [0u8; HEAD];
    input::read_full(reader, &mut head)?;
    let mut table = [0u8; LARGE_BUFFER];
    run_case(
        reader,
        writer,
        &mut table[..input::length_at(&head, 0)],
        input::number_at(&head, 2),
        input::number_at(&head, 10),
    )
}

fn main(rt: HostRuntime) {
    let mut reader = rt.stdin();
    let mut writer = rt.stdout();
    input::for_each_case(|| run_next(&mut reader, &mut writer));
}
