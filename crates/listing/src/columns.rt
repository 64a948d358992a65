// The lines of a listing, from the table's own bytes and the columns that the analysis wrote.

ghost use Rattle.std.specs.Prelude.{◌≡◌, ◌<◌, ◌≤◌, length};
ghost use Rattle.esterel.specs.Limits.{max_nodes};
ghost use Rattle.esterel.specs.Statement.{size, loop_depth};
ghost use Rattle.table.specs.Program.{program_of};
ghost use Rattle.listing.specs.Written.{Columns};

use crate::writer::{Writer, width};

// One line of a listing.
#[derive(Clone, Copy)]
pub(crate) struct Line {
    kind: u64,
    field: u64,
    k: u64,
    a: u64,
    s: u64,
    mark: u64,
}

// An accepted table with the columns of its listing.
#[derive(Clone, Copy)]
pub(crate) struct Listing<'a> {
    pub(crate) table: &'a [u8],
    pub(crate) starts: &'a [u64],
    pub(crate) anys: &'a [u64],
    pub(crate) contexts: &'a [u64],
    pub(crate) marks: &'a [u8],
    pub(crate) loops: usize,
    ghost columns: { ∥ Columns table.now starts.now anys.now contexts.now marks.now ∥₁ },
    ghost depth: { loops ≡ loop_depth (program_of table.now) },
}

// A length comes before the writing, so that a caller sees that the text fits.
impl Line {
    ghost use Rattle.listing.specs.Text.{line_text};
    ghost use Rattle.listing.specs.Lines.{printed};
    ghost use Rattle.listing.specs.Writer.{HasRoom, Puts};

    // How many bytes the line of a node takes.
    fn length(&self, node: usize) -> usize
        ensures { (result ≡ length (line_text node (printed self.now))) × (result ≤ 455) }
    {
        let numbers = width(node as u64, 10) + width(self.kind, 10) + width(self.field, 10);
        let sets = width(self.k, 16) + width(self.a, 16) + width(self.s, 16);
        numbers + sets + width(self.mark, 10) + 7
    }

    fn write(&self, node: usize, to: &mut Writer<'_>)
        requires { HasRoom to.old (line_text node (printed self.now)) }
        ensures { Puts to.old (line_text node (printed self.now)) to.new }
    {
        to.field(node as u64, 10, b' ');
        to.field(self.kind, 10, b' ');
        to.field(self.field, 10, b' ');
        to.field(self.k, 16, b' ');
        to.field(self.a, 16, b' ');
        to.field(self.s, 16, b' ');
        to.field(self.mark, 10, b'\n');
    }
}

impl Listing<'_> {
    ghost use Rattle.esterel.specs.Table.{passed};
    ghost use Rattle.esterel.specs.Checks.{listing};
    ghost use Rattle.listing.specs.Text.{line_text, lines_from, text_of};
    ghost use Rattle.listing.specs.Written.{line_at};
    ghost use Rattle.listing.specs.Lines.{printed};
    ghost use Rattle.listing.specs.Writer.{HasRoom, Puts};

    fn nodes(&self) -> usize
        ensures { (result ≡ size (program_of self.now.table.now)) × (result ≤ max_nodes) }
    {
        self.table.len() / 2
    }

    // A node's line. Its kind and field are the table's own bytes.
    fn line(&self, node: usize) -> Line
        requires { node < size (program_of self.now.table.now) }
        ensures { line_text node (printed result) ≡ line_text node (line_at (program_of self.now.table.now) node) }
    {
        Line {
            kind: u64::from(self.table[2 * node]),
            field: u64::from(self.table[2 * node + 1]),
            k: self.starts[node],
            a: self.anys[node],
            s: self.contexts[node],
            mark: u64::from(self.marks[node]),
        }
    }

    // How many bytes the lines of all nodes take.
    fn lines_length(&self) -> usize
        ensures { (result ≡ length (lines_from 0 (listing (program_of self.now.table.now)))) × (result ≤ 465920) }
    {
        let mut total: usize = 0;
        for i in 0..self.nodes() {
            total += self.line(i).length(i);
        }
        total
    }

    fn write_lines(&self, to: &mut Writer<'_>)
        requires { HasRoom to.old (lines_from 0 (listing (program_of self.now.table.now))) }
        ensures { Puts to.old (lines_from 0 (listing (program_of self.now.table.now))) to.new }
    {
        for i in 0..self.nodes() {
            self.line(i).write(i, to);
        }
    }

    // How many bytes the whole listing takes: its first line, then those of the nodes.
    pub(crate) fn length(&self) -> usize
        ensures { result ≡ length (text_of (passed (program_of self.now.table.now))) }
    {
        let nodes = self.nodes();
        let planned = nodes * (1 + self.loops);
        let header = width(nodes as u64, 10)
            + width(self.loops as u64, 10)
            + width(planned as u64, 10)
            + 6;
        header + self.lines_length()
    }

    pub(crate) fn write(&self, to: &mut Writer<'_>)
        requires { HasRoom to.old (text_of (passed (program_of self.now.table.now))) }
        ensures { Puts to.old (text_of (passed (program_of self.now.table.now))) to.new }
    {
        to.header(self.nodes(), self.loops);
        self.write_lines(to);
    }
}
