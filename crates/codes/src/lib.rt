// Sets of completion codes, each held in a u64: bit k is 1 where code k is in the set.
#![tactic(auto)]

ghost use Rattle.std.specs.Prelude.{◌≡◌, ◌+◌, ◌<◌};
ghost use Rattle.codes.specs.Codes.{catch_code};
ghost use Rattle.codes.specs.Words.{◌∋◌, singleton_of, union_of, without_ended_of, meets_of, lowest_of, highest_of, larger_of, parallel_of, caught_of, under_trap_of, under_parallel_of, span_of};

// Whether the set has the code.
pub fn has(set: u64, code: u32) -> bool
    requires { code < 64 }
    ensures { result ≡ (set ∋ code) }
{
    (set >> code) & 1 == 1
}

// The set of one code.
pub fn singleton(code: u32) -> u64
    requires { code < 64 }
    ensures { result ≡ singleton_of code }
{
    1 << code
}

pub fn union(a: u64, b: u64) -> u64
    ensures { result ≡ union_of a b }
{
    a | b
}

// What a trap makes of a code.
pub fn catch_code(code: usize) -> usize
    ensures { result ≡ catch_code code }
{
    match code {
        0 | 1 => code,
        2 => 0,
        _ => code - 1,
    }
}

// The set without code 0: what is left once the statement has ended.
pub fn without_ended(a: u64) -> u64
    ensures { result ≡ without_ended_of a }
{
    a & !1
}

// Whether a and b have a code in common.
pub fn meets(a: u64, b: u64) -> bool
    ensures { result ≡ meets_of a b }
{
    a & b != 0
}

// The lowest code of a set, from its trailing zeros.
pub fn lowest(set: u64) -> Option<u32>
    ensures { result ≡ lowest_of set }
{
    if set == 0 {
        return None;
    }
    Some(set.trailing_zeros())
}

// The highest code of a set, from its leading zeros.
pub fn highest(set: u64) -> Option<u32>
    ensures { result ≡ highest_of set }
{
    if set == 0 {
        return None;
    }
    Some(63 - set.leading_zeros())
}

// The codes from low to high.
fn span(low: u32, high: u32) -> u64
    requires { (low < 64) × (high < 64) }
    ensures { result ≡ span_of low high }
{
    (u64::MAX << low) & (u64::MAX >> (63 - high))
}

// The larger of two codes, where there are two.
fn larger(a: Option<u32>, b: Option<u32>) -> Option<u32>
    ensures { result ≡ larger_of a b }
{
    Some(a?.max(b?))
}

// Every larger one of a code of a and a code of b: the codes of either, from the larger of the
// lowest codes to the larger of the highest.
pub fn parallel(a: u64, b: u64) -> u64
    ensures { result ≡ parallel_of a b }
{
    let Some(low) = larger(lowest(a), lowest(b)) else {
        return 0;
    };
    let Some(high) = larger(highest(a), highest(b)) else {
        return 0;
    };
    (a | b) & span(low, high)
}

// What a trap makes of the codes of its body: 0 and 2 become 0, 1 stays, each k from 3 becomes k - 1.
pub fn caught(a: u64) -> u64
    ensures { result ≡ caught_of a }
{
    (a | a >> 2) & 1 | a & 2 | (a >> 1) & !3
}

// The context of a trap's body, from the trap's own: the codes that the trap turns into one of it.
pub fn under_trap(context: u64) -> u64
    ensures { result ≡ under_trap_of context }
{
    context & 3 | (context & 1) << 2 | (context & !3) << 1
}

// The context of a parallel's child with `traps` traps around it, from the parallel's own: all codes that the child can
// give, or none under an empty one (F-5).
pub fn under_parallel(context: u64, traps: u32) -> u64
    requires { 1 + traps < 64 }
    ensures { result ≡ under_parallel_of traps context }
{
    if context == 0 {
        return 0;
    }
    span(0, 1 + traps)
}
