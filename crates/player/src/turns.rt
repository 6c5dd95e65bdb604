// One move of a list: judged on the table that is kept, and its successor kept if it is accepted. Two buffers take the tables by turns.
ghost use Rattle.cows.specs.Step.{read_move};
ghost use Rattle.player.specs.Turns.{Accepted, Copied, Judges, Turns, Turned, Going, GoesOn};

use crate::loads;
use crate::making::make;
use plans::{Plan, Refusal};
use proposals::Move;
use records::limits;
use stepper::answering::{fitting, refused};
use tables::{Reply, accepted};
use tally::Tally;
use ways::KnownTable;

// What is kept from move to move: whether the table is in the second of the two buffers, and its records; and how many live waits the other buffer lists, if it
// lists them. `second` is a plain yes or no, which `!` turns.
#[derive(Clone, Copy)]
pub struct Kept {
    pub second: bool,
    pub records: usize,
    pub waits: Option<usize>,
}

// An accepted move: the move, its plan, and what it counts.
#[derive(Clone, Copy)]
pub struct Tried {
    pub m: Move,
    pub plan: Plan,
    pub counts: Tally,
}

// A move's end: the reply to it, with the records then kept; what is kept; and what it counts.
#[derive(Clone, Copy)]
pub struct Next {
    pub reply: Reply,
    pub kept: Kept,
    pub counts: Tally,
}

// The load that an accepted move copies: of a body, by an unfolding.
fn copied(table: KnownTable, m: Move) -> u32
    requires { Accepted table.bytes.now table.ends.now m }
    ensures { Copied table.entry.bytes.now table.entry.ends.now m result }
{
    let Move::Unfold(a) = m else {
        return 0;
    };
    loads::load_between(table.bytes, a + 1, usize::from(table.ends[a]))
}

// A move, as it was read, on a known table, judged: its plan and what it counts, or the reply to its refusal.
fn judged(table: KnownTable, m: Option<Move>) -> Result<Tried, Reply>
    ensures { Judges table.entry.bytes.now table.entry.ends.now m result }
{
    let Some(m) = m else {
        return Err(refused(Refusal::Unread));
    };
    let plan = fitting(moves::judge(table, Some(m)), limits::MAX_BYTES)?;
    Ok(Tried {
        m,
        plan,
        counts: tally::counts(Some(m), copied(table, m)),
    })
}

// A move, by its bytes, on the table that is kept in t; `to` is the other buffer.
fn turn(kept: Kept, t: &mut [u8], ends: &mut [u16], bytes: &[u8], to: &mut [u8]) -> Next
    requires { Turns kept t.old ends.old to.old }
    ensures { Turned kept (read_move bytes.now) t.old ends.old to.old t.new ends.new to.new result }
{
    let m = proposals::read_move(bytes);
    let n = kept.records;
    let size = 16 * n;
    let table = KnownTable {
        bytes: &t[..size],
        ends,
    };
    // Laid out ahead of the judgement: made behind it, it is copied at once, and waits for the bytes between its parts, a quarter of a refused move.
    let mut next = Next {
        reply: accepted(n),
        kept,
        counts: Tally::default(),
    };
    match judged(table, m) {
        Err(reply) => {
            next.reply.answer = reply.answer;
            next.reply.place = reply.place;
        }
        Ok(tried) => {
            let plan = tried.plan;
            next.kept = make(kept, t, ends, tried.m, plan.from, plan.records, to);
            next.reply.records = plan.records;
            next.counts = tried.counts;
        }
    }
    next
}

// A move on the table that is kept in one of the buffers.
pub fn move_on(kept: Kept, x: &mut [u8], y: &mut [u8], ends: &mut [u16], bytes: &[u8]) -> Next
    requires { Going x.old y.old ends.old kept }
    ensures { GoesOn (read_move bytes.now) kept x.old y.old ends.old x.new y.new ends.new result }
{
    if kept.second {
        return turn(kept, y, ends, bytes, x);
    }
    turn(kept, x, ends, bytes, y)
}
