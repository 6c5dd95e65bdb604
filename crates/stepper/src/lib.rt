// Stepper: one move on a table, any bytes for both: the reply, and the successor in the output.
#![tactic(auto)]

pub mod answering;

ghost use Rattle.std.specs.Prelude.{◌+◌, ◌/◌, ◌≤◌, ◌<◌, min, length};
ghost use Rattle.cows.specs.Limits.{max_records};
ghost use Rattle.cows.specs.Terms.{Term};
ghost use Rattle.cows.specs.Step.{step_term};
ghost use Rattle.ways.specs.TermOf.{TermOf};
ghost use Rattle.proposals.specs.Proposals.{read_as};
ghost use Rattle.stepper.specs.Replies.{Answers, Stepped};
ghost use Rattle.stepper.specs.Demand.{Demand2};

use crate::answering::{fitting, refused};
use plans::Refusal;
use proposals::Move;
use records::limits;
use tables::{Reply, accepted};
use ways::KnownTable;

// A move, as it was read, on a known table: it is judged, and its successor is written if it is allowed and fits. Refusals 10 to 21.
pub fn step_known(table: KnownTable, m: Option<Move>, out: &mut [u8]) -> Reply
    ensures { (t : Term) → TermOf table.entry t → Answers (step_term t (read_as m) (length out.old)) out.old out.new result }
{
    let Some(m) = m else {
        return refused(Refusal::Unread);
    };
    match fitting(moves::judge(table, Some(m)), out.len()) {
        Err(reply) => reply,
        Ok(plan) => {
            moves::write(table, m, plan.from, out);
            accepted(plan.records)
        }
    }
}

// One move on a table, with room for the ends of its terms.
fn step_with(table: &[u8], m: &[u8], ends: &mut [u16], out: &mut [u8]) -> Reply
    requires { min (length table.now / 16) max_records + 1 < length ends.old }
    ensures { Stepped table.now m.now out.old out.new result × Demand2 table.now m.now out.old out.new result }
{
    let checked = tables::check_ends(table, ends);
    if checked.answer != 0 {
        return checked;
    }
    step_known(
        KnownTable { bytes: table, ends },
        proposals::read_move(m),
        out,
    )
}

// The same with room for so many ends of its own.
fn step_in<const ROOM: usize>(table: &[u8], m: &[u8], out: &mut [u8]) -> Reply
    requires { (min (length table.now / 16) max_records + 1 < ROOM) × (ROOM ≤ 65536) }
    ensures { Stepped table.now m.now out.old out.new result × Demand2 table.now m.now out.old out.new result }
{
    let mut ends = [0u16; ROOM];
    step_with(table, m, &mut ends, out)
}

// One move on a table: 0, 0 and the records of the successor, which the output then begins with, or the refusal of 1 to 21, its place and 0. Reply and every
// output byte are those of the definition, and of both demand 2 holds. A short table takes few ends, since their numbers are cleared first.
pub fn step(table: &[u8], m: &[u8], out: &mut [u8]) -> Reply
    ensures { Stepped table.now m.now out.old out.new result × Demand2 table.now m.now out.old out.new result }
{
    if table.len() <= 512 {
        return step_in::<34>(table, m, out);
    }
    if table.len() <= 4096 {
        return step_in::<258>(table, m, out);
    }
    step_in::<{ limits::ENDS }>(table, m, out)
}
