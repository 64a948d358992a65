// Blocks of the service partition (F-4): the used content of a part, and the table of the highest whole edition.
#![tactic(auto)]

ghost use Rattle.std.specs.Prelude.{◌≡◌, ◌↔◌, IsTrue, true, EachIndex, slice_index, ◌++◌, ◌+◌, ◌*◌, ◌<◌, ◌≤◌, length, drop};
ghost use Rattle.std.proofs.Math.Option.{some};
ghost use Rattle.blocks.specs.Block.{block_size, Bytes, word as word_of, good as good_of};
ghost use Rattle.blocks.specs.Editions.{file_fits, blocks_in, block_at, is_good_for, parts_of, newest as newest_of, table_of};
ghost use Rattle.blocks.specs.Steps.{Summed, usable, Checked, is_part, Placed, FoundPlace, edition_of, higher_than, Best, chosen};
ghost use Rattle.blocks.specs.Fetching.{Locating, Handing, refused_at, Fetching};

use esterel::{Check, Refusal};

const BLOCK: usize = 512;

// Where the content of a block starts, its size, and where the two check bytes stand.
const CONTENT_AT: usize = 8;

const CONTENT: usize = 502;

const CHECKS_AT: usize = 510;

const MAX_BLOCKS: usize = 64;

// The longest table.
const MAX_TABLE: usize = 2 * esterel::MAX_NODES;

// Two bytes, lowest first. No plainer as one function with the programs' `input::word_at`: no crate lies below both.
fn word(block: &[u8], at: usize) -> u16
    requires { at + 1 < length block.now }
    ensures { result ≡ word_of block.now at }
{
    u16::from_le_bytes([block[at], block[at + 1]])
}

// The two sums of some bytes, reduced to check bytes.
#[derive(Drop)]
struct Sums {
    first: u32,
    second: u32,
}

// The sums are reduced once, at the end: those of a block's bytes fit without.
fn sum_bytes(bytes: &[u8]) -> Sums
    requires { length bytes.now ≤ block_size }
    ensures { Summed bytes.now result }
{
    let mut first: u32 = 0;
    let mut second: u32 = 0;
    for byte in bytes {
        first += u32::from(*byte);
        second += first;
    }
    Sums {
        first: first % 255,
        second: second % 255,
    }
}

fn all_zero(bytes: &[u8]) -> bool
    ensures { IsTrue result ↔ EachIndex bytes.now (λ k. slice_index bytes.now k ≡ 0) }
{
    bytes.iter().all(|byte| *byte == 0)
}

// Whether a block is good: its check bytes, its used length and its filler.
fn is_good(block: &[u8; BLOCK]) -> bool
    ensures { result ≡ good_of block.now }
{
    let sums = sum_bytes(&block[0..CHECKS_AT]);
    if u32::from(block[CHECKS_AT]) != sums.first {
        return false;
    }
    if u32::from(block[CHECKS_AT + 1]) != sums.second {
        return false;
    }
    let used = usize::from(word(block, 6));
    if used < 1 {
        return false;
    }
    if CONTENT < used {
        return false;
    }
    all_zero(&block[CONTENT_AT + used..CHECKS_AT])
}

// Whether a block is a good one of the program; one of another program is not summed.
fn is_usable(block: &[u8; BLOCK], program: u16) -> bool
    ensures { result ≡ usable program block.now }
{
    if word(block, 0) != program {
        return false;
    }
    is_good(block)
}

// Whether a block is for an edition and a part.
fn is_part(block: &[u8; BLOCK], edition: u16, number: u8) -> bool
    ensures { result ≡ is_part edition number block.now }
{
    word(block, 2) == edition && block[4] == number
}

// Whether a block is a good one for a program, an edition and a part; one for another is not summed.
fn is_good_for(block: &[u8; BLOCK], program: u16, edition: u16, number: u8) -> bool
    ensures { result ≡ is_good_for program edition number block.now }
{
    if !is_part(block, edition, number) {
        return false;
    }
    is_usable(block, program)
}

// Whether the file is whole blocks, at most 64 of them (17).
fn fits(file: &[u8]) -> bool
    ensures { result ≡ file_fits file.now }
{
    file.len() % BLOCK == 0 && file.len() <= MAX_BLOCKS * BLOCK
}

fn block_at(file: &[u8], i: usize) -> &[u8; BLOCK]
    requires { block_size * i + block_size ≤ length file.now }
    ensures { result.now ≡ block_at file.now i }
{
    file[BLOCK * i..].first_chunk().unwrap()
}

// A part of the file.
#[derive(Clone, Copy)]
pub struct Span {
    pub from: usize,
    pub length: usize,
}

// The used content of a block in the file, and the number of parts that it names.
#[derive(Drop)]
struct Place {
    span: Span,
    parts: u8,
}

// The place of the used content of block i.
fn place_at(file: &[u8], i: usize) -> Place
    requires { block_size * i + block_size ≤ length file.now }
    ensures { Placed file.now (some i) result }
{
    let block = block_at(file, i);
    let span = Span {
        from: BLOCK * i + CONTENT_AT,
        length: usize::from(word(block, 6)),
    };
    Place {
        span,
        parts: block[5],
    }
}

// The table of a whole edition: its length, its edition and the number of its parts.
#[derive(Clone, Copy)]
pub struct Fetched {
    pub length: usize,
    pub edition: u16,
    pub parts: u8,
}

// Whether an edition is higher than the best so far.
fn is_higher(edition: u16, best: Option<Fetched>) -> bool
    ensures { result ≡ higher_than edition best }
{
    match best {
        Some(best) => best.edition < edition,
        None => true,
    }
}

// Copies some bytes to the front of others that have room for them; how many they are. No plainer in `join` itself: the library's
// copy speaks of two parts of one length, and this contract of what stays behind the bytes.
fn copy(from: &[u8], to: &mut [u8]) -> usize
    requires { length from.now ≤ length to.old }
    ensures { (result ≡ length from.now) × (to.new ≡ from.now ++ drop (length from.now) to.old) }
{
    to[..from.len()].copy_from_slice(from);
    from.len()
}

// A file that is not refused 17, and for each of its blocks whether it is a good one of a program.
#[derive(Drop)]
struct Partition<'a> {
    file: &'a [u8],
    program: u16,
    good: [bool; MAX_BLOCKS],
    ghost checked: { Checked file.now program good },
    ghost bytes: { Bytes file.now },
}

impl<'a> Partition<'a> {
    // A fetch sums bytes here alone, so that it sums each block once.
    fn new(file: &'a [u8], program: u16) -> Partition<'a>
        requires { file_fits file.now ≡ true }
        ensures { (result.file.now ≡ file.now) × (result.program ≡ program) }
    {
        let mut good = [false; MAX_BLOCKS];
        for i in 0..file.len() / BLOCK {
            good[i] = is_usable(block_at(file, i), program);
        }
        Partition {
            file,
            program,
            good,
        }
    }

    // Of the good blocks for an edition and a part the last counts.
    fn find(&self, edition: u16, number: u8) -> Option<Place>
        ensures { FoundPlace self.now.file.now self.now.program edition number result }
    {
        let file = self.file;
        let n = file.len() / BLOCK;
        for i in (0..n).rev() {
            if self.good[i] && is_part(block_at(file, i), edition, number) {
                return Some(place_at(file, i));
            }
        }
        None
    }

    // Whether an edition is whole whose part 0 names so many parts.
    fn check_edition(&self, edition: u16, parts: u8) -> Option<Fetched>
        requires { parts ≡ parts_of self.now.file.now self.now.program edition }
        ensures { result ≡ edition_of self.now.file.now self.now.program edition }
    {
        if parts == 0 {
            return None;
        }
        let mut length: usize = 0;
        for k in 0..parts {
            let place = self.find(edition, k)?;
            if place.parts != parts {
                return None;
            }
            if k + 1 < parts && place.span.length != CONTENT {
                return None;
            }
            length += place.span.length;
        }
        Some(Fetched {
            length,
            edition,
            parts,
        })
    }

    // The best edition so far, or that of block i if it is higher and whole. It is looked at only where block i counts for its part 0,
    // so that no edition is looked at twice.
    fn consider(&self, i: usize, best: Option<Fetched>) -> Option<Fetched>
        requires { (i < blocks_in self.now.file.now) × Best self.now.file.now self.now.program i best }
        ensures { Best self.now.file.now self.now.program (i + 1) result }
    {
        if !self.good[i] {
            return best;
        }
        let edition = word(block_at(self.file, i), 2);
        if !is_higher(edition, best) {
            return best;
        }
        let Some(first) = self.find(edition, 0) else {
            return best;
        };
        if first.span.from != BLOCK * i + CONTENT_AT {
            return best;
        }
        self.check_edition(edition, first.parts).or(best)
    }

    // The highest whole edition.
    fn newest(&self) -> Option<Fetched>
        ensures { result ≡ chosen self.now.file.now self.now.program (newest_of self.now.file.now self.now.program) }
    {
        let mut best = None;
        for i in 0..self.file.len() / BLOCK {
            best = self.consider(i, best);
        }
        best
    }

    // The parts of an edition, joined.
    fn join(&self, edition: u16, parts: u8, table: &mut [u8])
        requires parts { parts ≡ parts_of self.now.file.now self.now.program edition }
        requires room { length (table_of self.now.file.now self.now.program edition) ≤ length table.old }
        ensures { table.new ≡ table_of self.now.file.now self.now.program edition ++ drop (length (table_of self.now.file.now self.now.program edition)) table.old }
    {
        let file = self.file;
        let mut at: usize = 0;
        for k in 0..parts {
            let Some(place) = self.find(edition, k) else {
                continue;
            };
            let from = place.span.from;
            let end = from + place.span.length;
            at += copy(&file[from..end], &mut table[at..]);
        }
    }
}

// Where the used content of a part is; empty if no block counts for it, or the file is refused 17. From the last block down: the
// first good one that is met counts, and only blocks for this part are summed.
pub fn locate(file: &[u8], program: u16, edition: u16, number: u8) -> Span
    ensures { Locating file.now program edition number result }
{
    if !fits(file) {
        return Span { from: 0, length: 0 };
    }
    let n = file.len() / BLOCK;
    for last in (0..n).rev() {
        if is_good_for(block_at(file, last), program, edition, number) {
            return place_at(file, last).span;
        }
    }
    Span { from: 0, length: 0 }
}

// The used content of a part, as a part of the lent file.
pub fn part(file: &[u8], program: u16, edition: u16, number: u8) -> &[u8]
    ensures { Handing file.entry program edition number result }
{
    let span = locate(file, program, edition, number);
    let from = span.from;
    let end = from + span.length;
    &file[from..end]
}

// The table of the highest whole edition of a program, to the lent table.
pub fn fetch(file: &[u8], program: u16, table: &mut [u8]) -> Result<Fetched, Refusal>
    ensures { Fetching file.now program table.old table.new result }
{
    if table.len() < MAX_TABLE {
        return refuse(Check::NoRoom);
    }
    if !fits(file) {
        return refuse(Check::NotBlocks);
    }
    let partition = Partition::new(file, program);
    let Some(best) = partition.newest() else {
        return refuse(Check::NoEdition);
    };
    if MAX_TABLE < best.length {
        return refuse(Check::TooManyNodes);
    }
    partition.join(best.edition, best.parts, table);
    Ok(best)
}

// No check of a fetch names a node.
fn refuse(check: Check) -> Result<Fetched, Refusal>
    ensures { result ≡ Err (refused_at check 0) }
{
    Err(Refusal { check, node: 0 })
}
