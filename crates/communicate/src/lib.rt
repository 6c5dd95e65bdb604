// Communicate (meeting): a live receive and a live invoke that fits it. The invoke becomes nil, the receive, with the whole choice around it, its
// continuation, and each variable that is bound takes its value throughout its delimitation, which goes.
#![tactic(auto)]

ghost use Rattle.std.specs.Prelude.{◌≡◌, ℕ, ◌+◌, ◌*◌, ◌/◌, ◌<◌, length};
ghost use Rattle.cows.specs.Terms.{Term};
ghost use Rattle.cows.specs.Places.{way_to};
ghost use Rattle.cows.specs.Moves.{communicate_at, mismatch_number};
ghost use Rattle.ways.specs.Known.{Table};
ghost use Rattle.ways.specs.TermOf.{TermOf};
ghost use Rattle.ways.specs.Ways.{start_of, LiveAt, Over};
ghost use Rattle.matching.specs.Matching.{mismatch_of};
ghost use Rattle.plans.specs.declared.Refusal.TheVariants.{Differs};
ghost use Rattle.plans.specs.Plans.{Allowed, Planned, Asks, Gives};
ghost use Rattle.communicate.specs.Judging.{BothLive, BothMatch, Meetable, Settles, Continues};
ghost use Rattle.communicate.specs.Outermost.{slots_taken, Outer, Outermost};

use matching::taking::takes_at;
use matching::{Difference, fits};
use plans::cutting::left;
use plans::{Plan, Refusal};
use records::{Atom, Binding, kinds};
use renaming::binding::{Bindings, write_within};
use scoping::all_in_scope;
use ways::KnownTable;

// 13 to 15, of parties that match and bind l variables: whether what they bind is in scope, and nothing holds them back.
fn ask_matched(table: KnownTable, a: usize, b: usize, l: usize) -> Result<usize, Refusal>
    requires { (a < length table.bytes.now / 16) × (b < length table.bytes.now / 16) }
    ensures { (t : Term) → TermOf table.entry t → BothLive table.entry.bytes.now a b t → BothMatch table.entry.bytes.now a b l → Settles t a b result }
{
    if !all_in_scope(table, a, b) {
        return Err(Refusal::Apart(a));
    }
    if let Some(p) = holding::first_held(table, a, b) {
        return Err(Refusal::Held(p));
    }
    if let Some(p) = holding::conflicts::first_rival(table, a, b, l) {
        return Err(Refusal::Looser(p));
    }
    Ok(l)
}

// 12, with the number of what differs.
fn differing(difference: Difference) -> Refusal
    ensures { result ≡ Differs (mismatch_number (mismatch_of difference)) }
{
    Refusal::Differs(usize::from(difference))
}

// How many variables the parties bind, or 12 to 15: whether they match, and if not the number of what differs; then 13 to 15.
fn ask(table: KnownTable, a: usize, b: usize) -> Result<usize, Refusal>
    requires { (a < length table.bytes.now / 16) × (b < length table.bytes.now / 16) }
    ensures { (t : Term) → TermOf table.entry t → BothLive table.entry.bytes.now a b t → Settles t a b result }
{
    let l = fits(table.bytes, a, b).map_err(differing)?;
    ask_matched(table, a, b, l)
}

// The plan of a meeting that binds l variables: the records that are left, and the place `from` where the whole choice around the receive begins.
fn meeting_plan(s: &[u8], ends: &[u16], a: usize, from: usize, l: usize) -> Plan
    requires { Continues s.now ends.now a from l }
    ensures { (t : Term) (b : ℕ) → Table s.now ends.now t → LiveAt s.now t a 3 → from ≡ start_of a (way_to t a) → Meetable t a b l → Allowed (communicate_at t a b) (start_of a (way_to t a)) result }
{
    Plan {
        records: left(ends, s.len() / 16, a, from) - l,
        from,
    }
}

// The move on the receive at place a and the invoke at place b; the place of its plan is where the whole choice around the receive begins.
pub fn judge(table: KnownTable, a: usize, b: usize) -> Result<Plan, Refusal>
    ensures { (t : Term) → TermOf table.entry t → Planned (communicate_at t a b) (start_of a (way_to t a)) result }
{
    let Some(receiver) = table.place_at(a, kinds::RECEIVE) else {
        return Err(Refusal::Absent(a));
    };
    let Some(_) = table.place_at(b, kinds::INVOKE) else {
        return Err(Refusal::Absent(b));
    };
    let l = ask(table, a, b)?;
    Ok(meeting_plan(table.bytes, table.ends, a, receiver.start, l))
}

// The outer one of place p and the delimitation around place b of the variable that takes a value, if one does.
fn outer(table: KnownTable, b: usize, taken: Option<Binding>, p: usize) -> usize
    requires { b < length table.bytes.now / 16 }
    ensures { (t : Term) → TermOf table.entry t → Over t p b → Outer t b p taken result }
{
    let Some(binding) = taken else {
        return p;
    };
    match table.scope(b, Atom::Variable(binding.variable)) {
        Some(q) => p.min(q),
        None => p,
    }
}

// Where what changes begins: at the outermost delimitation that goes, or at the invoke at place b if none does.
fn outermost(table: KnownTable, b: usize, taken: &[Option<Binding>; 4]) -> usize
    requires { b < length table.bytes.now / 16 }
    ensures { (t : Term) → TermOf table.entry t → Outermost t b taken.now result }
{
    let mut p = b;
    for binding in taken {
        p = outer(table, b, *binding, p);
    }
    p
}

// What the slots of the receive at place a take from those of the invoke at place b.
fn bindings(s: &[u8], a: usize, b: usize) -> Bindings
    requires { (16 * a + 15 < length s.now) × (16 * b + 15 < length s.now) }
    ensures { result.0 ≡ slots_taken s.now a b }
{
    let k = 16 * a;
    let m = 16 * b;
    Bindings([
        takes_at(s, k + 6, m + 6),
        takes_at(s, k + 8, m + 8),
        takes_at(s, k + 10, m + 10),
        takes_at(s, k + 12, m + 12),
    ])
}

// The successor when the receive at place a meets the invoke at place b: what stands ahead of the choice, the continuation, and what stands behind the choice, with the invoke silenced and the variables bound.
pub fn write(table: KnownTable, a: usize, b: usize, from: usize, out: &mut [u8])
    requires { Asks (λ t. communicate_at t a b) (λ t. start_of a (way_to t a)) table.bytes.now table.ends.now from out.old }
    ensures { Gives (λ t. communicate_at t a b) table.entry.bytes.now table.entry.ends.now out.old out.new }
{
    let taken = bindings(table.bytes, a, b);
    let end = usize::from(table.ends[a]);
    let rest = usize::from(table.ends[from]);
    let low = outermost(table, b, &taken.0);
    let high = usize::from(table.ends[low]);
    let body = write_within(table.bytes, 0, from, low, high, b, &taken, out, 0);
    let back = write_within(table.bytes, a + 1, end, low, high, b, &taken, out, body);
    let n = table.bytes.len() / 16;
    write_within(table.bytes, rest, n, low, high, b, &taken, out, back);
}
