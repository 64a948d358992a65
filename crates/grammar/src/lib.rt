// The limits of programs as text, as the code has them. The theory, in specs/, is what this crate is for.
#![tactic(auto)]

pub const MAX_SOURCE: usize = 16384;

pub const MAX_NAME: usize = 32;

pub const MAX_LEVELS: usize = 2731;
