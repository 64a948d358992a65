// A held state as bits (F-11): node i at bit i modulo 8, lowest first, of byte i divided by 8.
#![tactic(auto)]

ghost use Rattle.std.specs.Prelude.{◌≡◌, ◌++◌, ◌+◌, ◌-◌, ◌*◌, ◌<◌, ◌≤◌, length, drop, take, bit_or};
ghost use Rattle.std.specs.List.{fold};
ghost use Rattle.std.proofs.lemmas.List.Edits.{sets};
ghost use Rattle.esterel.specs.Limits.{max_nodes};
ghost use Rattle.esterel.specs.Instant.{zeros};
ghost use Rattle.packing.specs.Packing.{state_bytes, bit_of, column, bits_from, pack, unpack, is_clear_from, tail_of};

// The bytes of a held state: a bit for each node that a table can have.
pub const STATE_BYTES: usize = 128;

// The bits of a byte, lowest first, one in each of the bytes.
fn spread(byte: u8, bytes: &mut [u8])
    ensures { bytes.new ≡ column (bit_of byte) 0 (length bytes.old) }
{
    let mut rest = byte;
    for bit in bytes.iter_mut() {
        *bit = rest % 2;
        rest /= 2;
    }
}

// The bytes of the first n nodes: those of whole bytes of the state, then what is left. How many nodes there are stays in clauses, here and
// below: what may not change, `unpack` and `pack` take slices of any length. Over `chunks_mut` the proof can't
// close: once its parts are given back, a proof knows the slice's length alone.
pub fn unpack(state: &[u8], bytes: &mut [u8], n: usize)
    requires { (n ≤ 8 * length state.now) × (n ≤ length bytes.old) × (n ≤ max_nodes) }
    ensures { bytes.new ≡ unpack n state.now ++ drop n bytes.old }
{
    let whole = n / 8;
    for j in 0..whole {
        spread(state[j], &mut bytes[8 * j..8 * j + 8]);
    }
    if !n.is_multiple_of(8) {
        spread(state[whole], &mut bytes[8 * whole..n]);
    }
}

// The bits from node n on in the byte where it stands, none where it is the first there.
fn tail_of(state: &[u8], n: usize) -> u8
    requires { (n ≤ max_nodes) × (state_bytes ≤ length state.now) }
    ensures { result ≡ tail_of n state.now }
{
    if n.is_multiple_of(8) {
        return 0;
    }
    state[n / 8] >> (n % 8) as u32
}

// The bits of all bytes, joined. No byte is tested by itself, as `any` would, so that the compiler takes several at a time.
fn join(bytes: &[u8]) -> u8
    ensures { result ≡ fold bit_or 0 bytes.now }
{
    bytes.iter().fold(0, |bits, byte| bits | *byte)
}

// Whether no bit from node n on is 1.
pub fn is_clear_from(state: &[u8], n: usize) -> bool
    requires { (n ≤ max_nodes) × (state_bytes ≤ length state.now) }
    ensures { result ≡ is_clear_from n state.now }
{
    let used = n.div_ceil(8);
    tail_of(state, n) == 0 && join(&state[used..STATE_BYTES]) == 0
}

// The bits of up to 8 nodes as one byte. From the last node down, so that the first node's bit is the lowest.
fn byte_of(bytes: &[u8]) -> u8
    requires { length bytes.now ≤ 8 }
    ensures { result ≡ bits_from bytes.now 0 8 }
{
    let mut byte = 0;
    for bit in bytes.iter().rev() {
        byte = 2 * byte + u8::from(*bit != 0);
    }
    byte
}

// The packed state of n nodes, all 128 bytes of it: the whole bytes, then what is left of the nodes, then zeros. No iterator over the whole
// bytes for the reason given at `unpack`.
pub fn pack(bytes: &[u8], n: usize, state: &mut [u8])
    requires { (n ≤ length bytes.now) × (n ≤ max_nodes) × (state_bytes ≤ length state.old) }
    ensures { state.new ≡ pack (take n bytes.now) ++ drop state_bytes state.old }
{
    let whole = n / 8;
    for j in 0..whole {
        state[j] = byte_of(&bytes[8 * j..8 * j + 8]);
    }
    if !n.is_multiple_of(8) {
        state[whole] = byte_of(&bytes[8 * whole..n]);
    }
    let used = n.div_ceil(8);
    state[used..STATE_BYTES].fill(0);
}
