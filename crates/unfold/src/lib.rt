// Unfold (unfolding): a live replication becomes a parallel of a copy of its body, whose delimited atoms are new ones, and itself.
#![tactic(auto)]

ghost use Rattle.std.specs.Prelude.{◌≡◌, ◌+◌, ◌<◌, length};
ghost use Rattle.cows.specs.Terms.{parallel, Term};
ghost use Rattle.cows.specs.Kinds.{join};
ghost use Rattle.cows.specs.Format.{record16};
ghost use Rattle.cows.specs.Moves.{unfold_at};
ghost use Rattle.records.specs.Rewrites.{put};
ghost use Rattle.ways.specs.TermOf.{TermOf};
ghost use Rattle.plans.specs.Plans.{Planned, Asks, Gives};

use depths::deeper;
use plans::{Plan, Refusal};
use records::copying::copy;
use records::{kinds, limits};
use ways::KnownTable;

// The move on the replication at place a, which is the place of its plan. The records on the way to it and the parallel then stand above it.
pub fn judge(table: KnownTable, a: usize) -> Result<Plan, Refusal>
    ensures { (t : Term) → TermOf table.entry t → Planned (unfold_at t a) a result }
{
    let Some(place) = table.place_at(a, kinds::REPLICATION) else {
        return Err(Refusal::Absent(a));
    };
    let size = table.bytes.len() / 16 + (usize::from(table.ends[a]) - a);
    let room = limits::MAX_DEPTH - 1 - place.above;
    if (limits::MAX_RECORDS < size) | deeper(table.bytes, table.ends, a, room) {
        return Err(Refusal::Large(a));
    }
    Ok(Plan {
        records: size,
        from: a,
    })
}

// Writes the record of a parallel at byte `at`.
fn put_parallel(dst: &mut [u8], at: usize)
    requires { at + 15 < length dst.old }
    ensures { dst.new ≡ put dst.old at (record16 (join parallel)) }
{
    let mut record = [0u8; 16];
    record[0] = 6;
    copy(&record, 0, 16, dst, at);
}

// Its successor: what stands ahead of the replication, the parallel, a copy of the body, and all from the replication on.
pub fn write(table: KnownTable, a: usize, out: &mut [u8])
    requires { Asks (λ t. unfold_at t a) (λ t. a) table.bytes.now table.ends.now a out.old }
    ensures { Gives (λ t. unfold_at t a) table.entry.bytes.now table.entry.ends.now out.old out.new }
{
    let end = usize::from(table.ends[a]);
    let left = 16 * (a + 1);
    let right = 16 * end;
    copy(table.bytes, 0, 16 * a, out, 0);
    put_parallel(out, 16 * a);
    renaming::write_copy(table.bytes, a + 1, end, out, left);
    copy(table.bytes, 16 * a, table.bytes.len() - 16 * a, out, right);
}
