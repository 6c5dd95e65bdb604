// Ticks: a time move from two readings of a controller's clock, any bytes for the table (request 2026-05): the reply, and the table in the output.
#![tactic(auto)]

ghost use Rattle.std.specs.Prelude.{◌≡◌, ◌+◌, ◌%◌, length};
ghost use Rattle.cows.specs.Papers.{time};
ghost use Rattle.stepper.specs.Replies.{Answers};
ghost use Rattle.ticks.specs.Ticks.{rollover};
ghost use Rattle.ticks.specs.Claims.{Ticked, TicksClaims};
ghost use Rattle.ticks.specs.Unmoved.{is_time, refused_with, judge_unmoved};

use records::copying::copy;
use std::num;
use tables::{Reply, accepted, refusal};

// So many ticks and more are a clock gone back; and the longest time of a move.
const GONE_BACK: u32 = 2147483648;

const LONGEST_TIME: u32 = 65535;

// The ticks from one reading to the other: the later less the earlier, rolling over at the top.
fn ticks_between(earlier: u32, later: u32) -> u32
    ensures { (result + earlier) % rollover ≡ later }
{
    num::wrapping_sub_u32(later, earlier)
}

// Whether so many ticks are the time of a move.
fn is_time(d: u32) -> bool
    ensures { result ≡ is_time d }
{
    (0 < d) & (d <= LONGEST_TIME)
}

// The answer that refuses so many ticks: 23 for a clock gone back, 24 for more than a move's time.
fn refused_with(d: u32) -> Option<u8>
    ensures { result ≡ refused_with d }
{
    if GONE_BACK <= d {
        return Some(23);
    }
    if LONGEST_TIME < d {
        return Some(24);
    }
    None
}

// No move is made: the table's refusals, then the ticks' own; then 21, or the table as it came.
fn make_no_move(table: &[u8], refused: Option<u8>, out: &mut [u8]) -> Reply
    ensures { Answers (judge_unmoved refused table.now (length out.old)) out.old out.new result }
{
    let checked = tables::check(table);
    if checked.answer != 0 {
        return checked;
    }
    if let Some(answer) = refused {
        return refusal(answer, 0);
    }
    if out.len() < table.len() {
        return refusal(21, 0);
    }
    copy(table, 0, table.len(), out, 0);
    accepted(checked.records)
}

// The six bytes of the time move by d.
fn time_move(d: u16) -> [u8; 6]
    ensures { result ≡ time d }
{
    [3, 0, (d % 256) as u8, (d / 256) as u8, 0, 0]
}

// A time move from two readings of the clock: 0, 0 and the records of the table that is left, which the output then begins with, or the refusal of 1 to 7, 23, 24 or
// 21, its place and 0. Reply and every output byte are those of the definition, and of both the request's claims hold.
pub fn tick(table: &[u8], earlier: u32, later: u32, out: &mut [u8]) -> Reply
    ensures { Ticked table.now earlier later out.old out.new result × TicksClaims table.now earlier later out.old out.new result }
{
    let d = ticks_between(earlier, later);
    if is_time(d) {
        // A cast and no `try_from`: after the test there is no other case.
        let m = time_move(d as u16);
        return stepper::step(table, &m, out);
    }
    make_no_move(table, refused_with(d), out)
}
