// Tally: the counts of a list of moves. What one move counts is a tally too, made in one place, `counts`; `count` is lent a tally and adds it there.
#![tactic(auto)]

ghost use Rattle.std.specs.Prelude.{◌≡◌};
ghost use mathlib.Core.Option.{some};
ghost use Rattle.cows.specs.Moves as meaning;
ghost use Rattle.cows.specs.Run.{counted, no_tally, adds};
ghost use Rattle.proposals.specs.Proposals.{move_of, read_as};
ghost use Rattle.tally.specs.Counted.{tally_of, sum_of, SumsFit};

use proposals::Move;
use std::ops::AddAssign;

// Communications (meetings), kills (stops), timeouts (expiries), and the load copied by unfoldings.
#[derive(Clone, Copy, PartialEq, Eq, Debug)]
pub struct Tally {
    pub communications: u32,
    pub kills: u32,
    pub timeouts: u32,
    pub copied: u32,
}

// A tally by its counts.
fn counted(communications: u32, kills: u32, timeouts: u32, copied: u32) -> Tally
    ensures { result ≡ tally_of (counted communications kills timeouts copied) }
{
    Tally {
        communications,
        kills,
        timeouts,
        copied,
    }
}

// Before the first move, and of a refused one: zeros.
impl Default for Tally {
    ghost is_default = { λ c. c ≡ tally_of no_tally };

    fn default() -> Tally {
        counted(0, 0, 0, 0)
    }
}

// What an accepted move counts that copies a load.
fn counts_of(m: Move, load: u32) -> Tally
    ensures { result ≡ tally_of (adds load (move_of m)) }
{
    match m {
        Move::Kill(_) => counted(0, 1, 0, load),
        Move::Communicate(_, _) => counted(1, 0, 0, load),
        Move::Timeout(_) => counted(0, 0, 1, load),
        Move::Elapse(_) => counted(0, 0, 0, load),
        Move::Unfold(_) => counted(0, 0, 0, load),
        Move::Extrude(_) => counted(0, 0, 0, load),
    }
}

// The same of a move as it was read: what is none counts nothing.
pub fn counts(m: Option<Move>, load: u32) -> Tally
    ensures { (v : meaning.Move) → read_as m ≡ some v → result ≡ tally_of (adds load v) }
{
    match m {
        Some(m) => counts_of(m, load),
        None => Tally::default(),
    }
}

// What kills count that fire as one step.
pub fn of_kills(kills: u32) -> Tally
    ensures { result ≡ tally_of (counted 0 kills 0 0) }
{
    counted(0, kills, 0, 0)
}

// Another tally is added.
impl AddAssign for Tally {
    ghost can_add_assign = { SumsFit };

    ghost add_assign_gives = { λ c one sum. sum ≡ sum_of c one };

    fn add_assign(&mut self, one: Tally) {
        self.communications += one.communications;
        self.kills += one.kills;
        self.timeouts += one.timeouts;
        self.copied += one.copied;
    }
}

// The tally rides along by `&mut`: what a move counts is added to it.
pub fn count(t: &mut Tally, one: Tally)
    requires { SumsFit t.old one }
    ensures { t.new ≡ sum_of t.old one }
{
    *t += one;
}
