// Moves: the six moves on a well-formed table, of a crate each. A move is judged first, which writes nothing, and then its successor is written.
#![tactic(auto)]

ghost use mathlib.Core.Option.{some};
ghost use Rattle.cows.specs.Terms.{Term};
ghost use Rattle.cows.specs.Moves.{kill_at};
ghost use Rattle.cows.specs.Step.{proposed};
ghost use Rattle.ways.specs.TermOf.{TermOf};
ghost use Rattle.plans.specs.Plans.{Planned, Asks, Gives};
ghost use Rattle.proposals.specs.Proposals.{move_of, read_as};
ghost use Rattle.kill.specs.Killing.{kill_scope};
ghost use Rattle.moves.specs.Places.{plan_place, read_place};

use plans::{Plan, Refusal};
use proposals::Move;
use ways::KnownTable;

// The judgement of a kill, handed on (docs/DECISIONS.md, The moves on a table).
fn judge_kill(table: KnownTable, a: usize) -> Result<Plan, Refusal>
    ensures { (t : Term) → TermOf table.entry t → Planned (kill_at t a) (kill_scope t a) result }
{
    kill::judge(table, a)
}

// A move on a known table is judged: whether it is allowed, how many records its successor has, and from which place on the table changes.
fn judge_move(table: KnownTable, m: Move) -> Result<Plan, Refusal>
    ensures { (t : Term) → TermOf table.entry t → Planned (proposed (some (move_of m)) t) (plan_place m t) result }
{
    match m {
        Move::Kill(a) => judge_kill(table, a),
        Move::Communicate(a, b) => communicate::judge(table, a, b),
        Move::Timeout(a) => timeout::judge(table, a),
        Move::Elapse(d) => elapse::judge(table.bytes, d),
        Move::Unfold(a) => unfold::judge(table, a),
        Move::Extrude(a) => extrude::judge(table, a),
    }
}

// The same of a move as it was read: bytes that are none are refused.
pub fn judge(table: KnownTable, m: Option<Move>) -> Result<Plan, Refusal>
    ensures { (t : Term) → TermOf table.entry t → Planned (proposed (read_as m) t) (read_place m t) result }
{
    match m {
        None => Err(Refusal::Unread),
        Some(m) => judge_move(table, m),
    }
}

// The successor of a move that is allowed; `from` is the place of its plan.
pub fn write(table: KnownTable, m: Move, from: usize, out: &mut [u8])
    requires { Asks (proposed (some (move_of m))) (plan_place m) table.bytes.now table.ends.now from out.old }
    ensures { Gives (proposed (some (move_of m))) table.entry.bytes.now table.entry.ends.now out.old out.new }
{
    match m {
        Move::Kill(a) => kill::write(table, a, from, out),
        Move::Communicate(a, b) => communicate::write(table, a, b, from, out),
        Move::Timeout(a) => timeout::write(table, a, from, out),
        Move::Elapse(d) => elapse::write(table, d, out),
        Move::Unfold(a) => unfold::write(table, a, out),
        Move::Extrude(a) => extrude::write(table, a, from, out),
    }
}
