// The line of a first tick, written into a lent text: the greatest number of entries, or the refusal as in the listing.
#![tactic(auto)]

ghost use Rattle.planline.specs.Line.{LineWritten};
ghost use Rattle.planline.specs.Whole.{line_of_front};

use listing::{Text, Writer};

// No line is longer: the word, a number of 2 digits and a node of 4, with blanks and the line feed.
pub const MAX_LINE: usize = 16;

// The line of a table, in a text that is long enough for any; its length.
pub fn render_line(table: &[u8], text: &mut [u8; MAX_LINE]) -> usize
    ensures { LineWritten table.now text.old text.new result }
{
    let mut to = Writer::new(text);
    match planning::most_entries(table) {
        Ok(entries) => to.field(entries as u64, 10, b'\n'),
        Err(refusal) => to.refusal(refusal.check as u8, refusal.node),
    }
    to.written()
}

// The line, as the text that a program writes.
pub struct PlanLine;

impl Text<MAX_LINE> for PlanLine {
    ghost Said = { LineWritten };

    fn render(table: &[u8], line: &mut [u8; MAX_LINE]) -> usize {
        render_line(table, line)
    }

    ghost of_front = { line_of_front };
}
