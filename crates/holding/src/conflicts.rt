// Conflicts: the first ready receive that fits an invoke and binds fewer variables.
ghost use Rattle.std.specs.Prelude.{◌≡◌, true, false, ℕ, ◌+◌, ◌*◌, ◌/◌, ◌≤◌, ◌<◌, length};
ghost use mathlib.Core.Option.{some};
ghost use Rattle.cows.specs.Basics.{found_with};
ghost use Rattle.cows.specs.Terms.{Term, Action, size, prefixed, receives};
ghost use Rattle.cows.specs.Places.{sub, first};
ghost use Rattle.cows.specs.Moves.{closed_action, fit, fewer, tighter};
ghost use Rattle.records.specs.Holds.{Holds};
ghost use Rattle.records.specs.Answers.{found_of};
ghost use Rattle.ways.specs.TermOf.{TermOf};
ghost use Rattle.matching.specs.Matching.{fit_of, ActionAt};
ghost use Rattle.holding.specs.Holding.{rival_at};

use crate::next_ready;
use matching::fits_closed;
use records::{kinds, word_at};
use ways::KnownTable;

// Whether the record at place i is a receive that fits the invoke at place b, which holds no variable, and binds fewer than l variables.
fn tighter(s: &[u8], i: usize, b: usize, l: usize) -> bool
    requires { (16 * i + 15 < length s.now) × (16 * b + 15 < length s.now) }
    ensures { (t : Term) (m : Action) → Holds s.now t → i < size t → ActionAt s.now b m → closed_action m ≡ true → result ≡ found_with (λ q. fewer l (fit q m)) (prefixed receives (sub t i)) }
{
    if s[16 * i] != kinds::RECEIVE {
        return false;
    }
    let Ok(n) = fits_closed(s, i, b) else {
        return false;
    };
    n < l
}

// The first such receive among the ready records.
pub fn first_tighter(table: KnownTable, b: usize, l: usize) -> Option<usize>
    requires { b < length table.bytes.now / 16 }
    ensures { (t : Term) (m : Action) → TermOf table.entry t → ActionAt table.entry.bytes.now b m → closed_action m ≡ true → result ≡ found_of (first (tighter m l) t) }
{
    let n = table.bytes.len() / 16;
    let mut i = 0;
    // A walk by the ends: where it goes on depends on the record.
    while i < n {
        if tighter(table.bytes, i, b, l) {
            return Some(i);
        }
        i = next_ready(table, i);
    }
    None
}

// Whether the record at place i is a receive on the endpoint of the invoke at place b.
fn rival(s: &[u8], i: usize, b: usize) -> bool
    requires { (16 * i + 15 < length s.now) × (16 * b + 15 < length s.now) }
    ensures { result ≡ rival_at s.now b i }
{
    let k = 16 * i;
    let m = 16 * b;
    let endpoint = (word_at(s, k + 2) == word_at(s, m + 2))
        & (word_at(s, k + 4) == word_at(s, m + 4));
    (s[k] == kinds::RECEIVE) & endpoint
}

// Whether there is such a record at places `from` to `to` (not included), ready or not: one pass without a branch.
fn any_rival(s: &[u8], from: usize, to: usize, b: usize) -> bool
    requires { (to ≤ length s.now / 16) × (16 * b + 15 < length s.now) }
    ensures { result ≡ false → (i : ℕ) → from ≤ i → i < to → rival_at s.now b i ≡ false }
{
    let mut any = false;
    for i in from..to {
        any = any | rival(s, i, b);
    }
    any
}

// The first receive that is tighter than the one at place a, which fits the invoke at place b and binds l variables. Where it binds none, or is alone on the endpoint, none is.
pub fn first_rival(table: KnownTable, a: usize, b: usize, l: usize) -> Option<usize>
    requires { (a < length table.bytes.now / 16) × (b < length table.bytes.now / 16) }
    ensures { (t : Term) (q m : Action) → TermOf table.entry t → prefixed receives (sub t a) ≡ some q → ActionAt table.entry.bytes.now b m → closed_action m ≡ true → Ok l ≡ fit_of (fit q m) → result ≡ found_of (first (tighter m l) t) }
{
    if l == 0 {
        return None;
    }
    let n = table.bytes.len() / 16;
    if !(any_rival(table.bytes, 0, a, b) | any_rival(table.bytes, a + 1, n, b)) {
        return None;
    }
    first_tighter(table, b, l)
}
