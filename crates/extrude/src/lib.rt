// Extrude (floating): a live delimitation of a value or a variable changes places with the record above it, a parallel, a protection or a delimitation.
#![tactic(auto)]

ghost use Rattle.std.specs.Prelude.{◌≡◌, ℕ, ◌+◌, ◌*◌, ◌≤◌, ◌<◌, length};
ghost use Rattle.cows.specs.Limits.{max_records};
ghost use Rattle.cows.specs.Terms.{Term};
ghost use Rattle.cows.specs.Places.{way_to};
ghost use Rattle.cows.specs.Kinds.{floats_over};
ghost use Rattle.cows.specs.Moves.{extrude_at};
ghost use Rattle.records.specs.Rewrites.{put};
ghost use Rattle.ways.specs.TermOf.{TermOf};
ghost use Rattle.ways.specs.Ways.{parent_of};
ghost use Rattle.plans.specs.Plans.{Planned, Asks, Gives};
ghost use Rattle.extrude.specs.Extruding.{is_label, beside_of, lift_at, Lifting, Liftable, Lifts, lifted, raised, LiftsEnds, EndsLifted};

use depths::deeper;
use plans::{Plan, Refusal};
use records::copying::copy;
use records::{Atom, atom_at, kinds, limits};
use ways::KnownTable;

fn is_label(a: Atom) -> bool
    ensures { result ≡ is_label a }
{
    matches!(a, Atom::Label(_))
}

// Whether a delimitation may change places with a record of this kind above it.
fn floats_over(kind: u8) -> bool
    ensures { result ≡ floats_over kind }
{
    matches!(kind, kinds::PARALLEL..=kinds::DELIMITATION)
}

// Where the other side begins of the parallel at place p, one side of which is at place a and ends at place `end`.
fn beside(p: usize, a: usize, end: usize) -> usize
    requires { p < max_records }
    ensures { result ≡ beside_of p a end }
{
    if a == p + 1 { end } else { p + 1 }
}

// The delimitation at place a and the record above it at place p, the place of the plan, change places, if they may; k records are on the way to a.
fn judge_above(s: &[u8], ends: &[u16], a: usize, p: usize, k: usize) -> Result<Plan, Refusal>
    requires { Liftable s.now ends.now a p k }
    ensures { (t : Term) (d : ℕ) → Lifting s.now ends.now a p k t d → Planned (lift_at d t a) p result }
{
    let kind = s[16 * p];
    if !floats_over(kind) {
        return Err(Refusal::Stuck(a));
    }
    let plan = Plan {
        records: s.len() / 16,
        from: p,
    };
    if kind != kinds::PARALLEL {
        return Ok(plan);
    }
    let room = limits::MAX_DEPTH - 1 - k;
    if deeper(s, ends, beside(p, a, usize::from(ends[a])), room) {
        return Err(Refusal::Large(p));
    }
    Ok(plan)
}

// The move on the delimitation at place a; the place of its plan is the record above.
pub fn judge(table: KnownTable, a: usize) -> Result<Plan, Refusal>
    ensures { (t : Term) → TermOf table.entry t → Planned (extrude_at t a) (parent_of (way_to t a)) result }
{
    let Some(place) = table.place_at(a, kinds::DELIMITATION) else {
        return Err(Refusal::Absent(a));
    };
    if is_label(atom_at(table.bytes, 16 * a + 2)) | (place.above == 0) {
        return Err(Refusal::Stuck(a));
    }
    judge_above(table.bytes, table.ends, a, place.parent, place.above)
}

// The record at place a goes before those from place p on.
fn lift(s: &[u8], a: usize, p: usize, out: &mut [u8])
    requires { Lifts (length s.now) a p (length out.old) }
    ensures { out.new ≡ put out.old 0 (lifted s.now a p) }
{
    copy(s, 0, 16 * p, out, 0);
    copy(s, 16 * a, 16, out, 16 * p);
    copy(s, 16 * p, 16 * (a - p), out, 16 * p + 16);
    copy(s, 16 * (a + 1), s.len() - 16 * (a + 1), out, 16 * (a + 1));
}

// Its successor.
pub fn write(table: KnownTable, a: usize, from: usize, out: &mut [u8])
    requires { Asks (λ t. extrude_at t a) (λ t. parent_of (way_to t a)) table.bytes.now table.ends.now from out.old }
    ensures { Gives (λ t. extrude_at t a) table.entry.bytes.now table.entry.ends.now out.old out.new }
{
    lift(table.bytes, a, from, out);
}

// The bytes from `low` up to `high` go up by one record, the last first.
fn raise(t: &mut [u8], low: usize, high: usize)
    requires { (low ≤ high) × (high + 16 ≤ length t.old) }
    ensures { t.new ≡ raised t.old low high }
{
    for i in (low..high).rev() {
        t[i + 16] = t[i];
    }
}

// The record at place a goes before those from place p on, where the table lies.
pub fn lift_in(t: &mut [u8], a: usize, p: usize)
    requires { (p < a) × (16 * (a + 1) ≤ length t.old) }
    ensures { t.new ≡ lifted t.old a p }
{
    let mut record = [0u8; 16];
    copy(t, 16 * a, 16, &mut record, 0);
    raise(t, 16 * p, 16 * a);
    copy(&record, 0, 16, t, 16 * p);
}

// The ends of the terms then: those of the places p to a - 1 go up by one, and end one later, but for the term at p, which ends where it ended.
pub fn lift_ends(ends: &mut [u16], a: usize, p: usize)
    requires { LiftsEnds ends.old a p }
    ensures { EndsLifted ends.old a p ends.new }
{
    let top = ends[p];
    for i in (p + 1..a).rev() {
        ends[i + 1] = ends[i] + 1;
    }
    ends[p + 1] = top;
}
