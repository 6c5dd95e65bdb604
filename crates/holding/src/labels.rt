// Labels around a place: whether a delimitation of a label encloses it. If none does, no kill holds a meeting there back.
ghost use Rattle.std.specs.Prelude.{◌≡◌, true, false, ℕ, ◌+◌, ◌*◌, ◌/◌, ◌<◌, length};
ghost use Rattle.cows.specs.Terms.{Term, size, label, delimits_at};
ghost use Rattle.cows.specs.Places.{sub};
ghost use Rattle.records.specs.Holds.{Holds};
ghost use Rattle.ways.specs.TermOf.{TermOf};
ghost use Rattle.holding.specs.Holding.{Outside};

use records::{Atom, atom_at, kinds};
use ways::KnownTable;

// Whether the record at place p is a delimitation of a label.
fn delimits_label(s: &[u8], p: usize) -> bool
    requires { 16 * p + 15 < length s.now }
    ensures { result ≡ false → (t : Term) → Holds s.now t → p < size t → (k : ℕ) → label k ≡ true → delimits_at k (sub t p) ≡ false }
{
    if s[16 * p] != kinds::DELIMITATION {
        return false;
    }
    let Atom::Label(k) = atom_at(s, 16 * p + 2) else {
        return false;
    };
    true
}

// Whether a delimitation of a label encloses place a.
pub fn labelled(table: KnownTable, a: usize) -> bool
    requires { a < length table.bytes.now / 16 }
    ensures { result ≡ false → (t : Term) → TermOf table.entry t → Outside label t a }
{
    table
        .first_above(a, |p| delimits_label(table.bytes, p))
        .is_some()
}
