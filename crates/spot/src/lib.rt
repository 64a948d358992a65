// A byte of a text as line and column, and the line that tells them.
#![tactic(auto)]

ghost use Rattle.std.specs.Prelude.{◌≡◌, ◌≤◌, length};
ghost use Rattle.grammar.specs.Limits.{max_source};
ghost use Rattle.listing.specs.Rendering.{WholeText};
ghost use Rattle.spot.specs.Spots.{line_after, column_after, SpotOf, spot_text};

use listing::Writer;

#[derive(Clone, Copy)]
pub struct Spot {
    pub line: usize,
    pub column: usize,
}

// Enough bytes for the line that tells any spot.
pub const LINE: usize = 160;

impl Spot {
    // The spot after a byte.
    fn after(self, byte: u8) -> Spot
        requires { (self.line ≤ max_source) × (self.column ≤ max_source) }
        ensures { (result.line ≡ line_after self.line byte) × (result.column ≡ column_after self.column byte) }
    {
        if byte == b'\n' {
            Spot {
                line: self.line + 1,
                column: 1,
            }
        } else {
            Spot {
                line: self.line,
                column: self.column + 1,
            }
        }
    }
}

// The line and column of a byte, or of the end of the text.
pub fn find_spot(text: &[u8], place: usize) -> Spot
    requires { (place ≤ length text.now) × (place ≤ max_source) }
    ensures { SpotOf text.now place result.line result.column }
{
    let mut spot = Spot { line: 1, column: 1 };
    for byte in &text[..place] {
        spot = spot.after(*byte);
    }
    spot
}

// The line that tells a spot; its length.
pub fn write_spot(spot: Spot, text: &mut [u8]) -> usize
    requires { 160 ≤ length text.old }
    ensures { WholeText (spot_text spot.line spot.column) text.old text.new result }
{
    let mut to = Writer::new(text);
    to.bytes(b"line ");
    to.field(spot.line as u64, 10, b' ');
    to.bytes(b"column ");
    to.field(spot.column as u64, 10, b'\n');
    to.written()
}
