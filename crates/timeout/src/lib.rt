// Timeout (expiry): a live wait with interval 0 becomes its continuation, with the whole choice around it.
#![tactic(auto)]

ghost use Rattle.cows.specs.Terms.{Term};
ghost use Rattle.cows.specs.Places.{way_to};
ghost use Rattle.cows.specs.Moves.{timeout_at};
ghost use Rattle.ways.specs.TermOf.{TermOf};
ghost use Rattle.ways.specs.Ways.{start_of};
ghost use Rattle.plans.specs.Plans.{Planned, Asks, Gives};

use plans::cutting::{cut, left};
use plans::{Plan, Refusal};
use records::{kinds, word_at};
use ways::KnownTable;

// The move on the wait at place a; the place of its plan is where the whole choice begins.
pub fn judge(table: KnownTable, a: usize) -> Result<Plan, Refusal>
    ensures { (t : Term) → TermOf table.entry t → Planned (timeout_at t a) (start_of a (way_to t a)) result }
{
    let Some(place) = table.place_at(a, kinds::WAIT) else {
        return Err(Refusal::Absent(a));
    };
    if word_at(table.bytes, 16 * a + 14) != 0 {
        return Err(Refusal::Unripe(a));
    }
    let from = place.start;
    Ok(Plan {
        records: left(table.ends, table.bytes.len() / 16, a, from),
        from,
    })
}

// Its successor: what stands ahead of the choice, the continuation, and what stands behind the choice.
pub fn write(table: KnownTable, a: usize, from: usize, out: &mut [u8])
    requires { Asks (λ t. timeout_at t a) (λ t. start_of a (way_to t a)) table.bytes.now table.ends.now from out.old }
    ensures { Gives (λ t. timeout_at t a) table.entry.bytes.now table.entry.ends.now out.old out.new }
{
    cut(table.bytes, table.ends, a, from, out);
}
