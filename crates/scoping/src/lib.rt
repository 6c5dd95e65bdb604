// Scoping: whether the delimitations of a variable and of the value that it is to take enclose what a meeting asks (refusal 13).
#![tactic(auto)]

ghost use Rattle.std.specs.Prelude.{◌≡◌, ◌+◌, ◌/◌, ◌<◌, length};
ghost use Rattle.cows.specs.Basics.{every};
ghost use Rattle.cows.specs.Format.{word};
ghost use Rattle.matching.specs.Matching.{slot_test};
ghost use Rattle.cows.specs.Terms.{Term};
ghost use Rattle.cows.specs.Moves.{Substitution, in_scope};
ghost use Rattle.ways.specs.TermOf.{TermOf};
ghost use Rattle.scoping.specs.Scopes.{Sends, MatchedParties, SlotSends};

use matching::taking::takes_at;
use records::{Atom, Value, Variable};
use ways::KnownTable;

// The variable x of the receive at place a and the value v of the invoke at place b.
fn in_scope(table: KnownTable, a: usize, b: usize, x: Variable, v: Value) -> bool
    requires { (a < length table.bytes.now / 16) × (b < length table.bytes.now / 16) }
    ensures { (t : Term) → TermOf table.entry t → Sends v.0 t b → result ≡ in_scope t a b (x.0, v.0) }
{
    let Some(p) = table.scope(a, Atom::Variable(x)) else {
        return false;
    };
    let Some(q) = table.scope(b, Atom::Variable(x)) else {
        return false;
    };
    let Some(e) = table.scope(b, Atom::Value(v)) else {
        return true;
    };
    e < p
}

// 13 in one slot, at byte p of the pattern and byte q of the message: the scopes of what is taken are in order.
fn slot_in_scope(table: KnownTable, a: usize, b: usize, p: usize, q: usize) -> bool
    requires { (a < length table.bytes.now / 16) × (b < length table.bytes.now / 16) × (p + 1 < length table.bytes.now) × (q + 1 < length table.bytes.now) }
    ensures { (t : Term) → TermOf table.entry t → SlotSends (word table.entry.bytes.now p) (word table.entry.bytes.now q) t b → result ≡ slot_test (in_scope t a b) (word table.entry.bytes.now p) (word table.entry.bytes.now q) }
{
    match takes_at(table.bytes, p, q) {
        Some(taken) => in_scope(table, a, b, taken.variable, taken.value),
        None => true,
    }
}

// 13 for the receive at place a and the invoke at place b, which fits it.
pub fn all_in_scope(table: KnownTable, a: usize, b: usize) -> bool
    requires { (a < length table.bytes.now / 16) × (b < length table.bytes.now / 16) }
    ensures { (t : Term) (σ : Substitution) → TermOf table.entry t → MatchedParties a b t σ → result ≡ every (in_scope t a b) σ }
{
    let p = 16 * a;
    let q = 16 * b;
    let back = slot_in_scope(table, a, b, p + 10, q + 10)
        & slot_in_scope(table, a, b, p + 12, q + 12);
    let tail = slot_in_scope(table, a, b, p + 8, q + 8) & back;
    slot_in_scope(table, a, b, p + 6, q + 6) & tail
}
