// Bytes and numbers, written one after the other into a lent text. It is written by hand, since `write!` tells a proof nothing of
// the bytes.

ghost use Rattle.std.specs.Prelude.{◌≡◌, [], ◌∷◌, ◌++◌, ◌+◌, ◌*◌, ◌<◌, ◌≤◌, length};
ghost use Rattle.esterel.specs.Limits.{max_nodes};
ghost use Rattle.esterel.specs.Table.{refused};
ghost use Rattle.listing.specs.Text.{digit as digit_of, digits, header_text, text_of};
ghost use Rattle.listing.specs.Writer.{HasRoom, Puts, Begins};

// A text while it is written: `at` bytes are done.
#[derive(Drop)]
pub struct Writer<'a> {
    text: &'a mut [u8],
    at: usize,
}

// How many digits a number has.
pub(crate) fn width(n: u64, base: u64) -> usize
    requires { 2 ≤ base }
    ensures { (result ≡ length (digits base n)) × (result ≤ 64) }
{
    match n.checked_ilog(base) {
        Some(power) => power as usize + 1,
        None => 1,
    }
}

// In lower case from 10 on.
fn digit(d: u64) -> u8
    requires { d < 16 }
    ensures { result ≡ digit_of d }
{
    if d < 10 {
        b'0' + d as u8
    } else {
        b'a' - 10 + d as u8
    }
}

impl<'a> Writer<'a> {
    pub fn new(text: &'a mut [u8]) -> Writer<'a>
        ensures { Begins text.entry result }
    {
        Writer { text, at: 0 }
    }

    // How many bytes are written.
    pub fn written(&self) -> usize
        ensures { result ≡ self.now.at }
    {
        self.at
    }

    pub fn byte(&mut self, byte: u8)
        requires { HasRoom self.old (byte ∷ []) }
        ensures { Puts self.old (byte ∷ []) self.new }
    {
        self.text[self.at] = byte;
        self.at += 1;
    }

    // Bytes as they are, for the words that begin a text.
    pub fn bytes(&mut self, bytes: &[u8])
        requires { HasRoom self.old bytes.now }
        ensures { Puts self.old bytes.now self.new }
    {
        let end = self.at + bytes.len();
        self.text[self.at..end].copy_from_slice(bytes);
        self.at = end;
    }

    // The last digit comes first: its place is known from the width.
    pub fn number(&mut self, n: u64, base: u64)
        requires { (2 ≤ base) × (base ≤ 16) × HasRoom self.old (digits base n) }
        ensures { Puts self.old (digits base n) self.new }
    {
        let end = self.at + width(n, base);
        let mut rest = n;
        for place in (self.at + 1..end).rev() {
            self.text[place] = digit(rest % base);
            rest /= base;
        }
        self.text[self.at] = digit(rest);
        self.at = end;
    }

    // A number and the byte after it.
    pub fn field(&mut self, n: u64, base: u64, after: u8)
        requires { (2 ≤ base) × (base ≤ 16) × HasRoom self.old (digits base n ++ (after ∷ [])) }
        ensures { Puts self.old (digits base n ++ (after ∷ [])) self.new }
    {
        self.number(n, base);
        self.byte(after);
    }

    // The line of a refusal, of any number (as `render_refusal`).
    pub fn refusal(&mut self, number: u8, node: usize)
        requires { HasRoom self.old (text_of (refused number node)) }
        ensures { Puts self.old (text_of (refused number node)) self.new }
    {
        self.bytes(b"refused ");
        self.field(u64::from(number), 10, b' ');
        self.field(node as u64, 10, b'\n');
    }

    // A listing's first line: `ok`, n, d, n(1 + d).
    pub fn header(&mut self, nodes: usize, loops: usize)
        requires { (nodes ≤ max_nodes) × (loops ≤ max_nodes) × HasRoom self.old (header_text nodes loops (nodes * (1 + loops))) }
        ensures { Puts self.old (header_text nodes loops (nodes * (1 + loops))) self.new }
    {
        let planned = nodes * (1 + loops);
        self.bytes(b"ok ");
        self.field(nodes as u64, 10, b' ');
        self.field(loops as u64, 10, b' ');
        self.field(planned as u64, 10, b'\n');
    }
}
