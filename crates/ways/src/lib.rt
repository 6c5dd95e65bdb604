// Ways: from the root of a known table down to a place, by the ends of terms. A way has as many steps as the place is deep, and is stored nowhere: one walk
// tells what a move asks of a place, another finds the first record above it that passes a test. How deep a term is: depths.
#![tactic(auto)]

pub mod known;

ghost use Rattle.std.specs.Prelude.{◌≡◌, ℕ, ◌+◌, ◌*◌, ◌/◌, ◌<◌, length};
ghost use Rattle.cows.specs.Terms.{Term, size, delimits_at};
ghost use Rattle.cows.specs.Kinds.{live_kind};
ghost use Rattle.cows.specs.Places.{way_to, sub};
ghost use Rattle.records.specs.Atoms.{number_of};
ghost use Rattle.records.specs.Holds.{Holds};
ghost use Rattle.records.specs.Answers.{found_of};
ghost use Rattle.ways.specs.Known.{EndPlaces};
ghost use Rattle.ways.specs.TermOf.{TermOf};
ghost use Rattle.ways.specs.Ways.{Over, Step, FirstAbove, scope_of, Placed};

pub use known::KnownTable;
use records::{Atom, atom_at, kinds};

// The next record on the way from the record at place p down to place a: its second child, if a lies behind the first.
pub fn down(ends: &[u16], p: usize, a: usize) -> usize
    requires { p + 1 < length ends.now }
    ensures { (t : Term) → EndPlaces ends.now t → Over t p a → p < a → Step t p a result }
{
    let end = usize::from(ends[p + 1]);
    if a < end { p + 1 } else { end }
}

// Whether the way to a live record may pass a record of this kind.
pub fn live_kind(kind: u8) -> bool
    ensures { result ≡ live_kind kind }
{
    (kinds::CHOICE <= kind) & (kind <= kinds::DELIMITATION)
}

// What the way to a live place says of it: how many records are above it, the last of them, and where the whole choice around it begins.
#[derive(Clone, Copy)]
pub struct Place {
    pub above: usize,
    pub parent: usize,
    pub start: usize,
}

// Whether the record at place p is a delimitation of the atom.
fn delimits(s: &[u8], p: usize, atom: Atom) -> bool
    requires { 16 * p + 15 < length s.now }
    ensures { (t : Term) → Holds s.now t → p < size t → result ≡ delimits_at (number_of atom) (sub t p) }
{
    (s[16 * p] == kinds::DELIMITATION) & (atom_at(s, 16 * p + 2) == atom)
}

impl<'a> KnownTable<'a> {
    // Place a, if a live record of the kind stands there.
    pub fn place_at(self, a: usize, kind: u8) -> Option<Place>
        ensures { (t : Term) → TermOf self.entry t → Placed t a kind result }
    {
        if self.bytes.len() / 16 <= a {
            return None;
        }
        if self.bytes[16 * a] != kind {
            return None;
        }
        let mut p = 0;
        let mut above = 0;
        let mut parent = 0;
        let mut start = 0;
        // A walk by the ends: where it goes on depends on the record.
        while p < a {
            let here = self.bytes[16 * p];
            if !live_kind(here) {
                return None;
            }
            parent = p;
            p = down(self.ends, parent, a);
            above += 1;
            if here != kinds::CHOICE {
                start = p;
            }
        }
        Some(Place {
            above,
            parent,
            start,
        })
    }

    // The first record above place a, on the way down to it, that passes the test.
    pub fn first_above<F: Fn(usize) -> bool>(self, a: usize, test: F) -> Option<usize>
        requires place { a < length self.bytes.now / 16 }
        requires asked { (p : ℕ) → p < a → F.pre test p }
        ensures { (t : Term) → TermOf self.entry t → FirstAbove (F.post test) t a result }
    {
        let mut p = 0;
        // A walk by the ends: where it goes on depends on the record.
        while p < a {
            if test(p) {
                return Some(p);
            }
            p = down(self.ends, p, a);
        }
        None
    }

    // The delimitation of an atom that encloses place a.
    pub fn scope(self, a: usize, atom: Atom) -> Option<usize>
        requires { a < length self.bytes.now / 16 }
        ensures { (t : Term) → TermOf self.entry t → result ≡ found_of (scope_of (number_of atom) (way_to t a)) }
    {
        self.first_above(a, |p| delimits(self.bytes, p, atom))
    }
}
