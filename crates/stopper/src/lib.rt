// Stopper: several kills as one step, on any bytes (request 2026-06): the reply, the tally, and the successor in the output.
#![tactic(auto)]

mod gathering;

ghost use Rattle.std.specs.Prelude.{◌≡◌, length};
ghost use Rattle.cows.specs.Terms.{Term};
ghost use Rattle.joint.specs.Joint.{wrong_number, joint_term};
ghost use Rattle.ways.specs.TermOf.{TermOf};
ghost use Rattle.stopper.specs.Firing.{CanFire, fire_term, CanJoin};
ghost use Rattle.stopper.specs.Claims.{JointAnswers, Joined, JointClaims};

use crate::gathering::gather;
use overlaps::first_overlap;
use player::{Played, accepted, refused};
use records::limits;
use settling::settle_at;
use ways::KnownTable;

// The most kills of a joint step.
const MOST_KILLS: usize = 8;

// Whether a list has no kill, or too many.
fn wrong_number(kills: &[u16]) -> bool
    ensures { result ≡ wrong_number kills.now }
{
    (kills.len() == 0) | (MOST_KILLS < kills.len())
}

// Fires live kills whose scopes are at hand, and which take away so many records if no two of them clash: 26, 21, or the successor.
fn fire(table: KnownTable, kills: &[u16], scopes: &[u16], gone: usize, out: &mut [u8]) -> Played
    requires { CanFire table.bytes.now table.ends.now kills.now scopes.now gone }
    ensures { (t : Term) → TermOf table.entry t → JointAnswers (fire_term t kills.now (length out.old)) kills.now out.old out.new result }
{
    if let Some(first) = first_overlap(table.ends, scopes) {
        return refused(26, usize::from(kills[first]));
    }
    let left = table.bytes.len() / 16 - gone;
    if out.len() / 16 < left {
        return refused(21, 0);
    }
    settle_at(table.bytes, table.ends, scopes, kills, 0, out, 0);
    accepted(left, tally::of_kills(kills.len() as u32))
}

// A joint step of 1 to 8 kills on a known table: 11, 26, 21, or the successor.
fn joint_known(table: KnownTable, kills: &[u16], out: &mut [u8]) -> Played
    requires { CanJoin table.bytes.now table.ends.now kills.now }
    ensures { (t : Term) → TermOf table.entry t → JointAnswers (joint_term t kills.now (length out.old)) kills.now out.old out.new result }
{
    let mut places = [0u16; MOST_KILLS];
    let n = kills.len();
    match gather(table, kills, &mut places) {
        Err(a) => refused(11, a),
        Ok(gone) => fire(table, kills, &places[..n], gone, out),
    }
}

// The kills at the listed places fired as one step: 0, 0 and the records of the successor, which the output then begins with, and a tally that counts them; or the refusal
// of 1 to 7, 25, 11, 26 or 21, its place and 0, and a tally of zeros. Reply, tally and every output byte are those of the definition, and of all three the request's
// claims hold.
pub fn joint(table: &[u8], kills: &[u16], out: &mut [u8]) -> Played
    ensures { Joined table.now kills.now out.old out.new result × JointClaims table.now kills.now out.old out.new result }
{
    let mut ends = [0u16; limits::ENDS];
    let checked = tables::check_ends(table, &mut ends);
    if checked.answer != 0 {
        return refused(checked.answer, checked.place);
    }
    if wrong_number(kills) {
        return refused(25, 0);
    }
    let table = KnownTable {
        bytes: table,
        ends: &ends,
    };
    joint_known(table, kills, out)
}
