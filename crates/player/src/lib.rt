// Player: a list of moves on a table, each on the table that the accepted ones before it left; the load of a table.
#![tactic(auto)]

mod buffers;
mod cutting;
mod loads;
mod making;
mod nights;
mod turns;

ghost use Rattle.std.specs.Prelude.{◌≡◌};
ghost use Rattle.cows.specs.Basics.{accept};
ghost use Rattle.cows.specs.Terms.{Term};
ghost use Rattle.cows.specs.Tables.{judge};
ghost use Rattle.ways.specs.Known.{Table};
ghost use Rattle.player.specs.Loads.{load_reply};
ghost use Rattle.player.specs.Nights.{Clear, refused_with, accepted_with, Plays, PlaysTerm};
ghost use Rattle.player.specs.Demand.{Demand3};

use crate::turns::Kept;
use records::limits;
use tables::Reply;
use tally::Tally;

// Play's own reply, and the tally of its accepted moves.
#[derive(Clone, Copy)]
pub struct Played {
    pub reply: Reply,
    pub tally: Tally,
}

// A play or a joint step that is refused: no records, and a tally of zeros.
pub fn refused(answer: u8, place: usize) -> Played
    ensures { result ≡ refused_with answer place }
{
    Played {
        reply: tables::refusal(answer, place),
        tally: Tally::default(),
    }
}

// A play or a joint step that is accepted: the records then kept, and the tally.
pub fn accepted(records: usize, tally: Tally) -> Played
    ensures { result ≡ accepted_with records tally }
{
    Played {
        reply: tables::accepted(records),
        tally,
    }
}

// The moves played on a known table, with room for all that play writes. The output is the first of the two buffers: nothing refuses from here on.
fn play_known(
    table: &[u8],
    ends: &mut [u16],
    moves: &[u8],
    out: &mut [u8],
    replies: &mut [u8],
) -> Played
    requires { Clear table.now ends.old moves.now out.old replies.old }
    ensures { (t : Term) → Table table.now ends.old t → PlaysTerm t moves.now out.old out.new replies.old replies.new result }
{
    let size = limits::MAX_BYTES;
    let mut other = [0u8; limits::MAX_BYTES];
    records::copying::copy(table, 0, table.len(), out, 0);
    let night = nights::night(
        Kept {
            second: false,
            records: table.len() / 16,
            waits: None,
        },
        moves,
        &mut out[..size],
        &mut other,
        ends,
        replies,
        moves.len() / 6,
    );
    let kept = night.kept;
    buffers::put_last(kept.second, &other, kept.records, out);
    accepted(kept.records, night.tally)
}

// A list of moves on a table, any bytes for both: 0, 0 and the records of the last table, which the output then begins with, zeros behind it up to byte
// 32,768, and in `replies` answer, place and records kept for each move; or the refusal of 1 to 7, 19 or 21, its place and 0, with nothing written.
// On a well-formed table that is demand 3.
pub fn play(table: &[u8], moves: &[u8], out: &mut [u8], replies: &mut [u8]) -> Played
    ensures { Plays table.now moves.now out.old out.new replies.old replies.new result × ((t : Term) → judge table.now ≡ accept t → Demand3 t moves.now out.old out.new replies.old replies.new result) }
{
    let mut ends = [0u16; limits::ENDS];
    let checked = tables::check_ends(table, &mut ends);
    if checked.answer != 0 {
        return refused(checked.answer, checked.place);
    }
    if limits::MAX_LIST_BYTES < moves.len() {
        return refused(19, 0);
    }
    if (out.len() < limits::MAX_BYTES) | (replies.len() < 6 * (moves.len() / 6)) {
        return refused(21, 0);
    }
    play_known(table, &mut ends, moves, out, replies)
}

// The load of a table: 0, 0 and the load, in place of the records, or the refusal of 1 to 7, its place and 0.
pub fn load(table: &[u8]) -> Reply
    ensures { result ≡ load_reply (judge table.now) }
{
    let mut ends = [0u16; limits::ENDS];
    let checked = tables::check_ends(table, &mut ends);
    if checked.answer != 0 {
        return checked;
    }
    let load = loads::load_between(table, 0, table.len() / 16);
    tables::accepted(load as usize)
}
