// Reads many texts: standard input holds them one after the other, each as its length in two bytes, lowest first, and its
// bytes. For each a line is written: `ok`, the nodes, the signals and the bytes of the table; or the refusal with its place. The
// expected output comes from another program (compare/).
#![tactic(auto)]

use input::LARGE_BUFFER;
use std::io;
use std::io::{Read, Write};
use text::Reading;

// Writes what a text is read as.
fn read_one<W: Write>(writer: &mut W, text: &[u8]) -> io::Result<()> {
    let mut table = [0u8; 2 * esterel::MAX_NODES];
    match text::read(text, &mut table) {
        Ok(Reading { nodes, signals }) => {
            writer.write_all(b"ok")?;
            write!(writer, " {nodes} {signals}")?;
            for byte in &table[..2 * nodes] {
                write!(writer, " {byte}")?;
            }
            writeln!(writer)
        }
        Err(fault) => {
            output::write_refusal(writer, fault.refusal.check as u8, fault.refusal.node)?;
            writeln!(writer, " {}", fault.place)
        }
    }
}

// Reads the next text.
fn read_next<R: Read, W: Write>(reader: &mut R, writer: &mut W) -> io::Result<()> {
    let mut text = [0u8; LARGE_BUFFER];
    let length = input::read_counted(reader, &mut text)?;
    read_one(writer, &text[..length])
}

fn main(rt: HostRuntime) {
    let mut reader = rt.stdin();
    let mut writer = rt.stdout();
    input::for_each_case(|| read_next(&mut reader, &mut writer));
}
