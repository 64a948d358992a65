// The limits of document 01, and of F-7 for the traps, as the code has them (the theory has them in specs/Limits.antt), and the checks.
#![tactic(auto)]

pub const MAX_NODES: usize = 1024;

pub const MAX_DEPTH: usize = 256;

pub const MAX_TRAPS: usize = 62;

pub const SIGNALS: usize = 256;

// The checks of documents 01 and 02, each by its number there: `check as u8`.
#[derive(Clone, Copy, PartialEq, Eq)]
pub enum Check {
    TooManyNodes = 1,
    NotPairs,
    NoRoom,
    UnknownKind,
    FieldNotZero,
    TooFewStatements,
    StatementsLeft,
    TooDeep,
    TooManyTraps,
    Uncaught,
    EndsAtOnce,
    NotAdmitted,
    Starved,
    NotInGrammar,
    ExitWithoutTrap,
    TooManySignals,
    NotBlocks,
    NoEdition,
    BadTie,
    FullLanguage,
    NoNode,
    TooManyPresents,
}

// The first check that fails and the node at which it does, 0 where the check names none.
#[derive(Clone, Copy, PartialEq, Eq)]
pub struct Refusal {
    pub check: Check,
    pub node: usize,
}
