// What holds a communication back whose parties match: ready kills (refusal 14, here) and tighter receives (15, conflicts).
// 14: the first delimitation of a label that encloses a party of a meeting and holds a ready kill of the label.
#![tactic(auto)]

pub mod conflicts;
mod labels;

ghost use Rattle.std.specs.Prelude.{◌≡◌, true, false, not, cond, ◌+◌, ◌*◌, ◌-◌, ◌/◌, ◌<◌, ◌≤◌, eqb, length, get_or};
ghost use Rattle.cows.specs.Limits.{first_label};
ghost use Rattle.cows.specs.Basics.{or_else};
ghost use Rattle.cows.specs.Terms.{Term, size};
ghost use Rattle.cows.specs.Kinds.{ready_kind};
ghost use Rattle.cows.specs.Places.{way_to, first};
ghost use Rattle.cows.specs.Active.{live};
ghost use Rattle.cows.specs.Moves.{held_back};
ghost use Rattle.records.specs.Holds.{Holds};
ghost use Rattle.records.specs.Answers.{found_of};
ghost use Rattle.ways.specs.TermOf.{TermOf};
ghost use Rattle.holding.specs.Holding.{mark_of, Marks, Unmarked, KillsMarked, holds_at};

use labels::labelled;
use records::{Atom, Label, atom_at, kinds, label_index};
use ways::KnownTable;

// Whether the way to a ready record may pass a record of this kind.
pub fn ready_kind(kind: u8) -> bool
    ensures { result ≡ ready_kind kind }
{
    (kinds::CHOICE <= kind) & (kind <= kinds::REPLICATION)
}

// The next place of the walk over the ready records: into the term at place i where the way may pass its record, and else behind the term.
pub fn next_ready(table: KnownTable, i: usize) -> usize
    requires { i < length table.bytes.now / 16 }
    ensures { result ≡ cond (ready_kind (get_or table.entry.bytes.now (16 * i) 0)) (i + 1) (get_or table.entry.ends.now i 0) }
{
    if ready_kind(table.bytes[16 * i]) {
        i + 1
    } else {
        usize::from(table.ends[i])
    }
}

// Marks the label k. There is one bit for each label.
fn mark(k: Label, marks: &mut [u64])
    requires { (first_label ≤ k.0) × (length marks.old ≡ 256) }
    ensures { Marks marks.old (k.0 - first_label) marks.new }
{
    let i = label_index(k);
    marks[i / 64] |= 1 << (i % 64);
}

// Whether the label k is marked.
fn marked(k: Label, marks: &[u64]) -> bool
    requires { (first_label ≤ k.0) × (length marks.now ≡ 256) }
    ensures { result ≡ not (eqb (mark_of marks.now (k.0 - first_label)) 0) }
{
    let i = label_index(k);
    (marks[i / 64] >> (i % 64)) % 2 != 0
}

// Marks the label of each ready kill, in one walk over the ready records, and says whether there is one.
fn mark_kills(table: KnownTable, marks: &mut [u64]) -> bool
    requires { length marks.old ≡ 256 }
    ensures { Unmarked marks.old → (result ≡ false → Unmarked marks.new) × ((t : Term) → TermOf table.entry t → KillsMarked marks.new t) }
{
    let n = table.bytes.len() / 16;
    let mut any = false;
    let mut i = 0;
    // A walk by the ends: where it goes on depends on the record.
    while i < n {
        let kind = table.bytes[16 * i];
        if kind == kinds::KILL {
            let atom = atom_at(table.bytes, 16 * i + 2);
            if let Atom::Label(k) = atom {
                mark(k, marks);
                any = true;
            }
        }
        i = next_ready(table, i);
    }
    any
}

// Whether the record at place p is a delimitation of a marked label.
fn delimits_marked(s: &[u8], p: usize, marks: &[u64]) -> bool
    requires { (16 * p + 15 < length s.now) × (length marks.now ≡ 256) }
    ensures { (t : Term) → Holds s.now t → p < size t → KillsMarked marks.now t → result ≡ holds_at t p }
{
    if s[16 * p] != kinds::DELIMITATION {
        return false;
    }
    let atom = atom_at(s, 16 * p + 2);
    let Atom::Label(k) = atom else {
        return false;
    };
    marked(k, marks)
}

// The first delimitation of a marked label on the way to the live place a.
fn marked_around(table: KnownTable, a: usize, marks: &[u64]) -> Option<usize>
    requires { (a < length table.bytes.now / 16) × (length marks.now ≡ 256) }
    ensures { (t : Term) → TermOf table.entry t → KillsMarked marks.now t → live (way_to t a) ≡ true → result ≡ found_of (first (held_back a a) t) }
{
    table.first_above(a, |p| delimits_marked(table.bytes, p, marks))
}

// The first on the way to the live place a, or else on the way to the live place b.
fn first_marked(table: KnownTable, a: usize, b: usize, marks: &[u64]) -> Option<usize>
    requires { (a < length table.bytes.now / 16) × (b < length table.bytes.now / 16) × (length marks.now ≡ 256) }
    ensures { (t : Term) → TermOf table.entry t → KillsMarked marks.now t → live (way_to t a) ≡ true → live (way_to t b) ≡ true → result ≡ found_of (or_else (first (held_back a a) t) (first (held_back b b) t)) }
{
    if let Some(p) = marked_around(table, a, marks) {
        return Some(p);
    }
    marked_around(table, b, marks)
}

// The first delimitation that holds back a meeting of the live places a and b. Where no label is delimited around either, or no kill is ready, none does.
// One around the higher place alone begins behind all that are around the lower one.
pub fn first_held(table: KnownTable, a: usize, b: usize) -> Option<usize>
    requires { (a < length table.bytes.now / 16) × (b < length table.bytes.now / 16) }
    ensures { (t : Term) → TermOf table.entry t → live (way_to t a) ≡ true → live (way_to t b) ≡ true → result ≡ found_of (first (held_back a b) t) }
{
    if !(labelled(table, a) | labelled(table, b)) {
        return None;
    }
    let mut marks = [0u64; 256];
    if !mark_kills(table, &mut marks) {
        return None;
    }
    if a < b {
        return first_marked(table, a, b, &marks);
    }
    first_marked(table, b, a, &marks)
}
