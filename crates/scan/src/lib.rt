// Tokens of a text: words, signs and other bytes.
#![tactic(auto)]

ghost use Rattle.std.specs.Prelude.{◌≡◌, [], ◌∷◌, ◌++◌, ◌-◌, ◌<◌, ◌≤◌, length, get_or};
ghost use Rattle.grammar.specs.Tokens.{class_of, is_in_word, is_blank, sign_of, word_token, is_count, name_or, among, dialect_words, inner_words, foreign_words};
ghost use Rattle.grammar.specs.Tokens as G;
ghost use Rattle.scan.specs.Scanning.{token_is, rest, Skipped, Worded, ScannedAs, BeginsAs, PastMark, CalledAs, none, Takes};

// The words and the sign that a statement begins with.
#[derive(Clone, Copy, PartialEq, Eq)]
pub enum Opening {
    Nothing,
    Pause,
    Emit,
    Exit,
    Signal,
    Trap,
    Loop,
    Present,
    Suspend,
    Bracket,
    Halt,
    Sustain,
    Await,
    Abort,
    Weak,
}

// The words and signs that stand within a statement or between two.
#[derive(Clone, Copy, PartialEq, Eq)]
pub enum Mark {
    Semicolon,
    Bars,
    Close,
    In,
    Then,
    Else,
    End,
    When,
}

// A token: by what it opens or marks, a name, a word of the full language or a count, a stray word or byte, or that the text is
// over.
#[derive(Clone, Copy, PartialEq, Eq)]
pub enum Token {
    Opens(Opening),
    Marks(Mark),
    Names,
    Foreign,
    Stray,
    Finished,
}

// A part of a text, from `start` to before `stop`.
#[derive(Clone, Copy, PartialEq, Eq)]
pub struct Part {
    pub start: usize,
    pub stop: usize,
}

// A token, and the part of the text that it is.
#[derive(Clone, Copy)]
pub struct Scanned {
    pub token: Token,
    pub part: Part,
}

// Whether a byte belongs to a word.
fn is_in_word(byte: u8) -> bool
    ensures { result ≡ is_in_word byte }
{
    byte.is_ascii_alphanumeric() || byte == b'_'
}

// Whether a byte separates.
fn is_blank(byte: u8) -> bool
    ensures { result ≡ is_blank byte }
{
    matches!(byte, b' ' | b'\t' | b'\n')
}

// What a byte that neither belongs to a word nor separates nor is a bar is by itself.
fn sign_of(byte: u8) -> Token
    ensures { token_is result [] ≡ sign_of byte ∷ [] }
{
    match byte {
        b';' => Token::Marks(Mark::Semicolon),
        b'[' => Token::Opens(Opening::Bracket),
        b']' => Token::Marks(Mark::Close),
        _ => Token::Stray,
    }
}

// The first place from `at` on with a byte that is no blank. One function for this and `word_end`, with the test as a closure, would
// be no plainer: each promise (`Skipped`, `Worded`) would need an induction of its own over what the closure said. The proof of
// `position` was tried and didn't close here: its goal `returns` (`Skipped`) stayed open.
fn skip(text: &[u8], at: usize) -> usize
    requires { at ≤ length text.now }
    ensures { Skipped text.now at result }
{
    for i in at..text.len() {
        if !is_blank(text[i]) {
            return i;
        }
    }
    text.len()
}

// The end of the word whose first byte stands at `at`.
fn word_end(text: &[u8], at: usize) -> usize
    requires { (at < length text.now) × (class_of (get_or text.now at 0) ≡ G.in_word) }
    ensures { Worded text.now at result }
{
    for i in at + 1..text.len() {
        if !is_in_word(text[i]) {
            return i;
        }
    }
    text.len()
}

// Whether a word is a count: digits alone.
fn is_count(word: &[u8]) -> bool
    ensures { result ≡ is_count word.now }
{
    word.iter().all(|byte| byte.is_ascii_digit())
}

// What a word that is none of the language's is.
fn name_or_count(word: &[u8]) -> Token
    requires { 0 < length word.now }
    ensures { token_is result word.now ≡ name_or word.now ∷ [] }
{
    if word[0].is_ascii_alphabetic() && word.len() <= grammar::MAX_NAME {
        return Token::Names;
    }
    if is_count(word) {
        return Token::Foreign;
    }
    Token::Stray
}

// Whether two byte strings are the same. The library's `==` was tried: it takes a call for each word of the language that is as long, so
// that a text of short words takes a quarter more instructions to read.
pub fn is_same(a: &[u8], b: &[u8]) -> bool
    ensures { result ≡ G.same_bytes a.now b.now }
{
    if a.len() != b.len() {
        return false;
    }
    for i in 0..a.len() {
        if a[i] != b[i] {
            return false;
        }
    }
    true
}

// The token of the word that `$word` is. It stands for a `match` on byte strings, which was tried, and whose proof didn't close: an arm
// tells the length alone. A loop over a table of words proves, but makes reading longer, by about a half for texts of words.
macro_rules! match_word {
    ($word:ident; $($letters:literal => $token:expr,)* _ => $other:expr) => {{
        $(if is_same($word, $letters) {
            return $token;
        })*
        $other
    }};
}

// What a word within a statement, one of the full language, or one that is none of the language's, is.
fn inner_word(word: &[u8]) -> Token
    requires { 0 < length word.now }
    ensures { token_is result word.now ≡ among (inner_words ++ foreign_words) word.now ∷ [] }
{
    match_word!(word;
        b"in" => Token::Marks(Mark::In),
        b"then" => Token::Marks(Mark::Then),
        b"else" => Token::Marks(Mark::Else),
        b"end" => Token::Marks(Mark::End),
        b"when" => Token::Marks(Mark::When),
        b"immediate" => Token::Foreign,
        b"every" => Token::Foreign,
        b"case" => Token::Foreign,
        _ => name_or_count(word)
    )
}

// What a word that opens a form of the dialect, or one that opens no statement of the kernel, is.
fn dialect_word(word: &[u8]) -> Token
    requires { 0 < length word.now }
    ensures { token_is result word.now ≡ among (dialect_words ++ (inner_words ++ foreign_words)) word.now ∷ [] }
{
    match_word!(word;
        b"halt" => Token::Opens(Opening::Halt),
        b"sustain" => Token::Opens(Opening::Sustain),
        b"await" => Token::Opens(Opening::Await),
        b"abort" => Token::Opens(Opening::Abort),
        b"weak" => Token::Opens(Opening::Weak),
        _ => inner_word(word)
    )
}

// What a word is.
fn read_word(word: &[u8]) -> Token
    requires { 0 < length word.now }
    ensures { token_is result word.now ≡ word_token word.now ∷ [] }
{
    match_word!(word;
        b"nothing" => Token::Opens(Opening::Nothing),
        b"pause" => Token::Opens(Opening::Pause),
        b"emit" => Token::Opens(Opening::Emit),
        b"exit" => Token::Opens(Opening::Exit),
        b"signal" => Token::Opens(Opening::Signal),
        b"trap" => Token::Opens(Opening::Trap),
        b"loop" => Token::Opens(Opening::Loop),
        b"present" => Token::Opens(Opening::Present),
        b"suspend" => Token::Opens(Opening::Suspend),
        _ => dialect_word(word)
    )
}

// One bar or two, where the first stands at `start`.
fn bars_at(text: &[u8], start: usize) -> Scanned
    requires { (start < length text.now) × (class_of (get_or text.now start 0) ≡ G.bar) }
    ensures { ScannedAs text.now start result.part.start result.part.stop result.token × BeginsAs text.now start result.part.start result.part.stop result.token }
{
    let stop = start + 1;
    if stop < text.len() && text[stop] == b'|' {
        return Scanned {
            token: Token::Marks(Mark::Bars),
            part: Part {
                start,
                stop: stop + 1,
            },
        };
    }
    Scanned {
        token: Token::Stray,
        part: Part { start, stop },
    }
}

// The next token from `at` on. That `at` lies in the text is asked here and below, and is no type's invariant: readers hand places
// on and come back to them, so a cursor would be built anew at each call and be no plainer. `Tokens` is the cursor of a search.
pub fn next_token(text: &[u8], at: usize) -> Scanned
    requires { at ≤ length text.now }
    ensures { ScannedAs text.now at result.part.start result.part.stop result.token × BeginsAs text.now at result.part.start result.part.stop result.token }
{
    let start = skip(text, at);
    if start == text.len() {
        return Scanned {
            token: Token::Finished,
            part: Part { start, stop: start },
        };
    }
    let byte = text[start];
    if is_in_word(byte) {
        let stop = word_end(text, start);
        return Scanned {
            token: read_word(&text[start..stop]),
            part: Part { start, stop },
        };
    }
    if byte == b'|' {
        return bars_at(text, start);
    }
    Scanned {
        token: sign_of(byte),
        part: Part {
            start,
            stop: start + 1,
        },
    }
}

// The place after the wanted mark, if it comes next.
pub fn past_mark(text: &[u8], at: usize, wanted: Mark) -> Option<usize>
    requires { at ≤ length text.now }
    ensures { PastMark text.now at wanted result }
{
    let scanned = next_token(text, at);
    match scanned.token {
        Token::Marks(mark) if mark == wanted => Some(scanned.part.stop),
        _ => None,
    }
}

// The part of the text that is a name, if one comes next.
pub fn next_name(text: &[u8], at: usize) -> Option<Part>
    requires { at ≤ length text.now }
    ensures { CalledAs text.now at result }
{
    let scanned = next_token(text, at);
    match scanned.token {
        Token::Names => Some(scanned.part),
        _ => None,
    }
}

// Whether nothing but blanks stands from a place on.
pub fn is_finished(text: &[u8], at: usize) -> bool
    requires { at ≤ length text.now }
    ensures { result ≡ none (rest text.now at) }
{
    next_token(text, at).token == Token::Finished
}

// The tokens of a text from a place on, one after the other.
#[derive(Clone, Copy)]
pub struct Tokens<'a> {
    text: &'a [u8],
    at: usize,
}

impl<'a> Tokens<'a> {
    // The tokens of a whole text.
    pub fn new(text: &'a [u8]) -> Tokens<'a>
        ensures { (result.text.now ≡ text.now) × (result.at ≡ 0) }
    {
        Tokens { text, at: 0 }
    }
}

impl<'a> Iterator for Tokens<'a> {
    ghost use Rattle.std.specs.Iterator.{at_most};

    type Item = Scanned;

    ghost can_next = { λ s. s.at ≤ length s.text.now };

    ghost next_gives = { Takes };

    ghost remaining = { λ s. at_most (length s.text.now - s.at) };

    fn next(&mut self) -> Option<Scanned> {
        let scanned = next_token(self.text, self.at);
        if scanned.token == Token::Finished {
            return None;
        }
        self.at = scanned.part.stop;
        Some(scanned)
    }
}
