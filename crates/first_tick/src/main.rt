// The program first_tick: reads a table from standard input and writes one line to standard output: the greatest number of entries that
// any answers can give when the table's program is started, or the refusal. What it reads is `input`'s, what it prints `planline`'s;
// this file only moves bytes.
#![tactic(auto)]

ghost use Rattle.std.specs.Prelude.{◌≤◌, IfOk};
ghost use Rattle.planline.specs.Line.{max_line};
ghost use Rattle.first_tick.specs.Plans.{Plans};

use planline::PlanLine;
use program::Program;
use std::io;
use std::io::Read;
use std::process::ExitCode;

// One byte more than a table may have: no more is read.
const BUFFER: usize = 2 * esterel::MAX_NODES + 1;

struct PlanProgram;

impl Program<BUFFER, { planline::MAX_LINE }> for PlanProgram {
    fn show<R: Read>(
        reader: &mut R,
        buffer: &mut [u8; BUFFER],
        line: &mut [u8; planline::MAX_LINE],
    ) -> io::Result<usize>
        ensures within { IfOk result (λ end. end ≤ max_line) }
        ensures shows { Plans buffer.old buffer.new line.old line.new result }
    {
        program::show_input::<{ planline::MAX_LINE }, PlanLine, R>(reader, buffer, line)
    }
}

fn main(rt: HostRuntime) -> ExitCode {
    program::run_program::<BUFFER, { planline::MAX_LINE }, PlanProgram>(
        &rt,
        "first_tick: standard input",
        "first_tick: standard output",
    )
}
