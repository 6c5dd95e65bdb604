// A night: every move of a list, one after the other, the reply to each, and the tally of all. The loop owns the tally and lends it to each move,
// which lends it on to be counted in. These do nothing else: all other work is in `move_at`.
ghost use Rattle.cows.specs.Terms.{Term};
ghost use Rattle.cows.specs.Run.{start};
ghost use Rattle.tally.specs.Counted.{Small};
ghost use Rattle.player.specs.Turns.{KeepsRun};
ghost use Rattle.player.specs.Nights.{CanMove, Made, Recorded, CanPlay, NightOver};

use crate::turns::Kept;
use crate::{buffers, turns};
use tally::Tally;

// A move made, or a night of them: what is kept then, and the tally.
#[derive(Clone, Copy)]
pub struct Moved {
    pub kept: Kept,
    pub tally: Tally,
}

// The buffers x and y and the ends are lent one by one: a struct of three `&mut` would be lent by `&mut` again, and `move_on` exchanges x and y.
// Move i of a list, all but the counting: made on the table that is kept, and its reply written.
fn move_at(
    kept: Kept,
    moves: &[u8],
    x: &mut [u8],
    y: &mut [u8],
    ends: &mut [u16],
    replies: &mut [u8],
    i: usize,
) -> Moved
    requires { CanMove moves.now i kept x.old y.old ends.old replies.old }
    ensures { Made moves.now i kept x.old y.old ends.old replies.old x.new y.new ends.new replies.new result }
{
    let at = 6 * i;
    let to = at + 6;
    let next = turns::move_on(kept, x, y, ends, &moves[at..to]);
    buffers::put_reply(next.reply, replies, at);
    Moved {
        kept: next.kept,
        tally: next.counts,
    }
}

// Move i, and the tally that is lent, lent on.
fn record_move(
    t: &mut Tally,
    kept: Kept,
    moves: &[u8],
    x: &mut [u8],
    y: &mut [u8],
    ends: &mut [u16],
    replies: &mut [u8],
    i: usize,
) -> Kept
    requires { CanMove moves.now i kept x.old y.old ends.old replies.old × Small t.old i }
    ensures { Recorded moves.now i kept x.old y.old ends.old replies.old t.old x.new y.new ends.new replies.new t.new result }
{
    let next = move_at(kept, moves, x, y, ends, replies, i);
    tally::count(&mut *t, next.tally);
    next.kept
}

// Plays the n moves of a list on the table that is kept at first: owns the tally, and lends it to each.
pub fn night(
    first: Kept,
    moves: &[u8],
    x: &mut [u8],
    y: &mut [u8],
    ends: &mut [u16],
    replies: &mut [u8],
    n: usize,
) -> Moved
    requires { CanPlay moves.now n first x.old y.old ends.old replies.old }
    ensures { (t : Term) → KeepsRun (start t) x.old y.old ends.old first → NightOver t moves.now x.new y.new ends.new replies.old replies.new result }
{
    let mut t = Tally::default();
    let mut kept = first;
    for i in 0..n {
        kept = record_move(
            &mut t,
            kept,
            moves,
            &mut *x,
            &mut *y,
            &mut *ends,
            &mut *replies,
            i,
        );
    }
    Moved { kept, tally: t }
}
