// Kill (stop fires): a live kill of k becomes nil, and what is parallel to it inside [k] is halted.
#![tactic(auto)]

mod losses;

ghost use Rattle.cows.specs.Terms.{Term};
ghost use Rattle.cows.specs.Moves.{kill_at};
ghost use Rattle.ways.specs.TermOf.{TermOf};
ghost use Rattle.plans.specs.Plans.{Planned, Asks, Gives};
ghost use Rattle.kill.specs.Killing.{kill_scope};

use crate::losses::lost;
use plans::{Plan, Refusal};
use records::copying::copy;
use records::{Atom, atom_at, kinds};
use rewriting::halting::aside_at;
use ways::KnownTable;

// The move on the kill at place a; the place of its plan is the [k] around it, which every well-formed table has.
pub fn judge(table: KnownTable, a: usize) -> Result<Plan, Refusal>
    ensures { (t : Term) → TermOf table.entry t → Planned (kill_at t a) (kill_scope t a) result }
{
    let Some(_) = table.place_at(a, kinds::KILL) else {
        return Err(Refusal::Absent(a));
    };
    let atom = atom_at(table.bytes, 16 * a + 2);
    let Atom::Label(k) = atom else {
        return Err(Refusal::Absent(a));
    };
    let Some(from) = table.scope(a, Atom::Label(k)) else {
        return Err(Refusal::Absent(a));
    };
    Ok(Plan {
        records: table.bytes.len() / 16 - lost(table, from + 1, a),
        from,
    })
}

// Its successor: the records up to [k], what is left of its body, and what stands behind it.
pub fn write(table: KnownTable, a: usize, from: usize, out: &mut [u8])
    requires { Asks (λ t. kill_at t a) (λ t. kill_scope t a) table.bytes.now table.ends.now from out.old }
    ensures { Gives (λ t. kill_at t a) table.entry.bytes.now table.entry.ends.now out.old out.new }
{
    let body = 16 * (from + 1);
    copy(table.bytes, 0, body, out, 0);
    let places = aside_at(table.bytes, table.ends, body, 16 * a, out, body);
    let next = places.0;
    let then = places.1;
    copy(table.bytes, next, table.bytes.len() - next, out, then);
}
