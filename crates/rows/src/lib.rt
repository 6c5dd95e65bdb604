// The rules for single records (refusal 2): the table of kinds, tested on the 16 bytes of a record.
#![tactic(auto)]

ghost use Rattle.std.specs.Prelude.{◌≡◌, ◌&&◌, [], ◌∷◌, ◌+◌, ◌*◌, ◌<◌, length, take, drop, eqb};
ghost use Rattle.cows.specs.Terms.{variable};
ghost use Rattle.cows.specs.Kinds.{distinct};
ghost use Rattle.cows.specs.Format.{word, right_contents, right_record};
ghost use Rattle.rows.specs.Rows.{quad, slot_right, tuple_contents, plain_right};

use records::{kinds, limits, word_at};

// The 64-bit number at byte k.
fn quad_at(s: &[u8], k: usize) -> u64
    requires { k + 7 < length s.now }
    ensures { result ≡ quad s.now k }
{
    u64::from(word_at(s, k))
        + 65536 * u64::from(word_at(s, k + 2))
        + 4294967296 * u64::from(word_at(s, k + 4))
        + 281474976710656 * u64::from(word_at(s, k + 6))
}

// Slot j of a tuple of n: a value or a variable below the count, 0 from it on.
fn slot_right(n: u8, j: u8, a: u16) -> bool
    ensures { result ≡ slot_right n j a }
{
    ((j < n) & ((1 <= a) & (a < limits::FIRST_LABEL))) | (!(j < n) & (a == 0))
}

// The record at byte k has a tuple: its endpoint's atoms are below `top`, its slots are filled up to the count, and it has no interval.
fn tuple_right(s: &[u8], k: usize, top: u16) -> bool
    requires { k + 15 < length s.now }
    ensures { result ≡ right_contents (tuple_contents top) (take 16 (drop k s.now)) }
{
    let n = s[k + 1];
    let p = word_at(s, k + 2);
    let o = word_at(s, k + 4);
    let ends = ((1 <= p) & (p < top)) & ((1 <= o) & (o < top));
    let slots = slot_right(n, 0, word_at(s, k + 6))
        & slot_right(n, 1, word_at(s, k + 8))
        & slot_right(n, 2, word_at(s, k + 10))
        & slot_right(n, 3, word_at(s, k + 12));
    ends & ((n <= 4) & slots) & (word_at(s, k + 14) == 0)
}

// a is a variable, and b is the same.
fn same_variable(a: u16, b: u16) -> bool
    ensures { result ≡ (variable a && eqb a b) }
{
    ((limits::FIRST_VARIABLE <= a) & (a < limits::FIRST_LABEL)) & (a == b)
}

// No variable stands twice among four atoms.
pub fn distinct4(a: u16, b: u16, c: u16, d: u16) -> bool
    ensures { result ≡ distinct (a ∷ b ∷ c ∷ d ∷ []) }
{
    let x = same_variable(a, b) | same_variable(a, c) | same_variable(a, d);
    let y = same_variable(b, c) | same_variable(b, d);
    !x & !y & !same_variable(c, d)
}

// A record without a tuple, of kind `kind`, as two 64-bit numbers.
fn plain_right(kind: u8, low: u64, high: u64) -> bool
    ensures { result ≡ plain_right kind low high }
{
    let first = low / 65536;
    match kind {
        kinds::DELIMITATION => (low % 65536 == 8) & (1 <= first) & (first < 65536) & (high == 0),
        kinds::KILL => (low % 65536 == 1) & (49152 <= first) & (first < 65536) & (high == 0),
        kinds::WAIT => (low == 4) & (high % 281474976710656 == 0),
        _ => (low < 10) & (high == 0),
    }
}

// The record at place i keeps the rules for single records.
pub fn record_right(s: &[u8], i: usize) -> bool
    requires { 16 * i + 15 < length s.now }
    ensures { result ≡ right_record (take 16 (drop (16 * i) s.now)) }
{
    let k = 16 * i;
    let kind = s[k];
    match kind {
        kinds::INVOKE => tuple_right(s, k, limits::FIRST_LABEL),
        kinds::RECEIVE => {
            let d = distinct4(
                word_at(s, k + 6),
                word_at(s, k + 8),
                word_at(s, k + 10),
                word_at(s, k + 12),
            );
            tuple_right(s, k, limits::FIRST_VARIABLE) & d
        }
        _ => plain_right(kind, quad_at(s, k), quad_at(s, k + 8)),
    }
}
