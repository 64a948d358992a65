// The translation program: reads a text of Esterel from standard input and writes its table to standard output. Of a text that is
// refused the line goes to standard error, as the listing has it, and then the line and column where the text is at fault, if it
// is so at a place; and nothing to standard output. What it reads is `input`'s, what it makes of it `text`'s; this file only
// moves bytes.
#![tactic(auto)]

ghost use Rattle.std.specs.Prelude.{◌<◌, ◌≤◌, length};
ghost use Rattle.grammar.specs.Limits.{max_source};
ghost use Rattle.translate.specs.Translates.{Translates};

use esterel::Check;
use std::io;
use std::io::{Read, Write};
use std::process::ExitCode;
use text::Fault;

// Reads the input and translates all of it, also where it does not fit in the buffer: what fits is too long a text then, too. It
// answers how many bytes the table has.
fn translate_input<R: Read>(
    reader: &mut R,
    buffer: &mut [u8],
    table: &mut [u8; 2 * esterel::MAX_NODES],
) -> io::Result<Result<usize, Fault>>
    requires { max_source < length buffer.old }
    ensures { Translates buffer.old buffer.new table.old table.new result }
{
    let length = input::read(reader, buffer)?;
    match text::read(&buffer[..length], table) {
        Ok(reading) => Ok(Ok(2 * reading.nodes)),
        Err(fault) => Ok(Err(fault)),
    }
}

// More bytes than the line of any refusal has.
const LINE: usize = 64;

// The line of a refusal, to standard error, and the line and column of its place, where it is at one.
fn tell_fault<W: Write>(writer: &mut W, text: &[u8], fault: Fault)
    requires { (fault.place ≤ length text.now) × (fault.place ≤ max_source) }
{
    let mut line = [0u8; LINE];
    let told = match listing::render_refusal(
        fault.refusal.check as u8,
        fault.refusal.node,
        &mut line,
    ) {
        Some(length) => &line[..length],
        None => b"translate: the refusal\n",
    };
    let _ = writer.write_all(told);
    if is_placed(fault.refusal.check) {
        let mut line = [0u8; spot::LINE];
        let length = spot::write_spot(spot::find_spot(text, fault.place), &mut line);
        let _ = writer.write_all(&line[..length]);
    }
}

// Whether a text's refusal is at a place of it.
fn is_placed(check: Check) -> bool {
    matches!(
        check,
        Check::NotInGrammar | Check::ExitWithoutTrap | Check::TooManySignals | Check::FullLanguage
    )
}

fn main(rt: HostRuntime) -> ExitCode {
    // One byte more than a text may have decides refusal 14, so no more is read.
    let mut buffer = [0u8; grammar::MAX_SOURCE + 1];
    let mut table = [0u8; 2 * esterel::MAX_NODES];
    let translated = match translate_input(&mut rt.stdin(), &mut buffer, &mut table) {
        Ok(translated) => translated,
        Err(e) => return output::tell_failure(&rt, "translate: standard input", Some(e)),
    };
    match translated {
        Ok(end) => match rt.stdout().write_all(&table[..end]) {
            Ok(()) => ExitCode::SUCCESS,
            Err(e) => output::tell_failure(&rt, "translate: standard output", Some(e)),
        },
        Err(fault) => {
            tell_fault(&mut rt.stderr(), &buffer, fault);
            ExitCode::SUCCESS
        }
    }
}
