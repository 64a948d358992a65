// The tick program: reads a table from standard input and writes one line to standard output: the loop's node and the answers
// with which its body begins and ends in one instant; without refusal 11, the first line of the listing. What it reads is
// `input`'s, what it prints `tickline`'s; this file only moves bytes.
#![tactic(auto)]

ghost use Rattle.std.specs.Prelude.{◌≤◌, IfOk};
ghost use Rattle.tickline.specs.Line.{max_line};
ghost use Rattle.tick.specs.Shows.{Shows};

use program::Program;
use std::io;
use std::io::Read;
use std::process::ExitCode;
use tickline::TickLine;

// One byte more than a table may have: no more is read.
const BUFFER: usize = 2 * esterel::MAX_NODES + 1;

struct TickProgram;

impl Program<BUFFER, { tickline::MAX_LINE }> for TickProgram {
    fn show<R: Read>(
        reader: &mut R,
        buffer: &mut [u8; BUFFER],
        line: &mut [u8; tickline::MAX_LINE],
    ) -> io::Result<usize>
        ensures within { IfOk result (λ end. end ≤ max_line) }
        ensures shows { Shows buffer.old buffer.new line.old line.new result }
    {
        program::show_input::<{ tickline::MAX_LINE }, TickLine, R>(reader, buffer, line)
    }
}

fn main(rt: HostRuntime) -> ExitCode {
    program::run_program::<BUFFER, { tickline::MAX_LINE }, TickProgram>(
        &rt,
        "tick: standard input",
        "tick: standard output",
    )
}
