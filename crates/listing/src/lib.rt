// The text of a listing, or of a refusal, written into a lent buffer.
#![tactic(auto)]

ghost use Rattle.std.specs.Prelude.{◌≡◌, ℕ, ◌*◌, ◌<◌, ◌≤◌, List, length, take};
ghost use Rattle.esterel.specs.Limits.{max_nodes};
ghost use Rattle.esterel.specs.Table.{passed, refused};
ghost use Rattle.esterel.specs.Checks.{verdict};
ghost use Rattle.table.specs.Program.{program_of};
ghost use Rattle.listing.specs.Text.{text_of};
ghost use Rattle.listing.specs.Rendering.{Rendering, WholeText};
ghost use Rattle.listing.specs.Whole.{IsListing, listing_of_front};

mod columns;
mod writer;

use columns::Listing;
pub use writer::Writer;
use writer::width;

// How many bytes a refusal takes.
fn refusal_length(number: u8, node: usize) -> usize
    ensures { result ≡ length (text_of (refused number node)) }
{
    width(u64::from(number), 10) + width(node as u64, 10) + 10
}

// The line of a refusal, and its length; a text that is too short for it stays as it was. It takes any number, as it did before the
// checks had names, so that callers are asked no more.
pub fn render_refusal(number: u8, node: usize, text: &mut [u8]) -> Option<usize>
    ensures { Rendering (text_of (refused number node)) text.old text.new result }
{
    let length = refusal_length(number, node);
    if text.len() < length {
        return None;
    }
    Writer::new(text).refusal(number, node);
    Some(length)
}

// The listing of an accepted table.
fn render_listing(listing: &Listing<'_>, text: &mut [u8]) -> Option<usize>
    ensures { Rendering (text_of (passed (program_of listing.now.table.now))) text.old text.new result }
{
    let length = listing.length();
    if text.len() < length {
        return None;
    }
    listing.write(&mut Writer::new(text));
    Some(length)
}

// The listing of a table, or the line of its refusal, and the length of it. A text that is too short stays as it was: the length is
// known first.
pub fn render(table: &[u8], text: &mut [u8]) -> Option<usize>
    ensures { Rendering (text_of (verdict table.now)) text.old text.new result }
{
    // The C interface: `analysis::analyse` fills four buffers, which are C's where C calls it.
    let mut starts = [0u64; esterel::MAX_NODES];
    let mut anys = [0u64; esterel::MAX_NODES];
    let mut contexts = [0u64; esterel::MAX_NODES];
    let mut marks = [0u8; esterel::MAX_NODES];
    let analysed = analysis::analyse(table, &mut starts, &mut anys, &mut contexts, &mut marks);
    match analysed {
        Ok(analysed) => {
            let listing = Listing {
                table,
                starts: &starts,
                anys: &anys,
                contexts: &contexts,
                marks: &marks,
                loops: analysed.loops,
            };
            render_listing(&listing, text)
        }
        Err(refusal) => render_refusal(refusal.check as u8, refusal.node, text),
    }
}

// A text of this many bytes holds the listing of any table.
pub const MAX_TEXT: usize = 67584;

// The listing, or the line of the refusal, in a text that is long enough for any; its length.
pub fn render_whole(table: &[u8], text: &mut [u8; MAX_TEXT]) -> usize
    ensures { WholeText (text_of (verdict table.now)) text.old text.new result }
{
    render(table, text).unwrap()
}

// The text that a program writes of a table, in a buffer of N bytes.
pub trait Text<const N: usize> {
    // Of an input and of the buffer, as it was and as it is: the text of the input stands at its front, up to `end`.
    ghost Said: { (input t t' : List ℕ) (end : ℕ) → Type 0 };

    fn render(table: &[u8], text: &mut [u8; N]) -> usize
        ensures within { result ≤ N }
        ensures said { Said table.now text.old text.new result };

    // What fits in a buffer for more bytes than a table may have is too long a table, and has the text of the whole input.
    ghost of_front: { (n : ℕ) (input t t' : List ℕ) (end : ℕ) → 2 * max_nodes < n → Said (take n input) t t' end → Said input t t' end };
}

// The listing, as such a text.
pub struct WholeListing;

impl Text<MAX_TEXT> for WholeListing {
    ghost Said = { IsListing };

    fn render(table: &[u8], text: &mut [u8; MAX_TEXT]) -> usize {
        render_whole(table, text)
    }

    ghost of_front = { listing_of_front };
}
