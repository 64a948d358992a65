// The line of a tick, written into a lent text: the loop's node and 0 or 1 for each answer; without refusal 11 the first line of
// the listing.
#![tactic(auto)]

ghost use Rattle.listing.specs.Writer.{HasRoom, Puts};
ghost use Rattle.tickline.specs.Line.{tick_text};
ghost use Rattle.tickline.specs.Written.{LineWritten, answers_text};
ghost use Rattle.tickline.specs.Whole.{line_of_front};

use listing::{Text, Writer};
use witness::Tick;

// No line is longer: 4 digits for the node, 511 answers, the line feed.
pub const MAX_LINE: usize = 1027;

// A blank and 0 or 1 for each answer.
fn write_answers(to: &mut Writer<'_>, answers: &[u8])
    requires { HasRoom to.old (answers_text answers.now) }
    ensures { Puts to.old (answers_text answers.now) to.new }
{
    for answer in answers {
        to.byte(b' ');
        to.number(u64::from(*answer), 10);
    }
}

fn write_tick(to: &mut Writer<'_>, node: usize, answers: &[u8])
    requires { HasRoom to.old (tick_text node answers.now) }
    ensures { Puts to.old (tick_text node answers.now) to.new }
{
    to.number(node as u64, 10);
    write_answers(to, answers);
    to.byte(b'\n');
}

// The line of a table, in a text that is long enough for any; its length.
pub fn render_line(table: &[u8], text: &mut [u8; MAX_LINE]) -> usize
    ensures { LineWritten table.now text.old text.new result }
{
    let mut answers = [0u8; starts::TICK_ANSWERS];
    let mut to = Writer::new(text);
    match witness::find_tick(table, &mut answers) {
        Ok(Tick::Ends { node, length }) => write_tick(&mut to, node, &answers[..length]),
        Ok(Tick::Accepted { nodes, loops }) => to.header(nodes, loops),
        Err(refusal) => to.refusal(refusal.check as u8, refusal.node),
    }
    to.written()
}

// The line, as the text that a program writes.
pub struct TickLine;

impl Text<MAX_LINE> for TickLine {
    ghost Said = { LineWritten };

    fn render(table: &[u8], line: &mut [u8; MAX_LINE]) -> usize {
        render_line(table, line)
    }

    ghost of_front = { line_of_front };
}
