// The listing program: reads a table from standard input and writes its listing, or the line of its refusal, to standard
// output. What it reads is `input`'s, what it prints `listing`'s; this file only moves bytes.
#![tactic(auto)]

ghost use Rattle.std.specs.Prelude.{◌≤◌, IfOk};
ghost use Rattle.listing.specs.Text.{max_text};
ghost use Rattle.list.specs.Lists.{Lists};

use listing::WholeListing;
use program::Program;
use std::io;
use std::io::Read;
use std::process::ExitCode;

// One byte more than a table may have: no more is read.
const BUFFER: usize = 2 * esterel::MAX_NODES + 1;

struct ListProgram;

impl Program<BUFFER, { listing::MAX_TEXT }> for ListProgram {
    fn show<R: Read>(
        reader: &mut R,
        buffer: &mut [u8; BUFFER],
        text: &mut [u8; listing::MAX_TEXT],
    ) -> io::Result<usize>
        ensures within { IfOk result (λ end. end ≤ max_text) }
        ensures shows { Lists buffer.old buffer.new text.old text.new result }
    {
        program::show_input::<{ listing::MAX_TEXT }, WholeListing, R>(reader, buffer, text)
    }
}

fn main(rt: HostRuntime) -> ExitCode {
    program::run_program::<BUFFER, { listing::MAX_TEXT }, ListProgram>(
        &rt,
        "list: standard input",
        "list: standard output",
    )
}
