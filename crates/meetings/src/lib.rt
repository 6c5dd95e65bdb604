// Meetings: the pairs of a receive and an invoke that may meet now, by a then b: 12, 13 and 15 of each pair on one class of endpoints.
#![tactic(auto)]

ghost use Rattle.std.specs.Prelude.{◌≡◌, List, ℕ, ◌+◌, ◌/◌, ◌*◌, ◌<◌, ◌≤◌, length, get_or};
ghost use Rattle.cows.specs.Terms.{Term};
ghost use Rattle.cows.specs.Format.{word};
ghost use Rattle.records.specs.Holds.{Holds};
ghost use Rattle.ways.specs.Known.{Table};
ghost use Rattle.ways.specs.TermOf.{TermOf};
ghost use Rattle.roles.specs.Roles.{meets, Cast};
ghost use Rattle.chains.specs.Chains.{ByAtom};
ghost use Rattle.roles.specs.Played.{Played};
ghost use Rattle.meetings.specs.Meetings.{Sent, meetings_at, Lists, MeetingsIn};
ghost use Rattle.meetings.specs.Reaching.{Tabled, SentTo, reach_low, reach_end, reach_top, ReachOf, reach_test, Facing};
ghost use Rattle.meetings.specs.Surveys.{Surveyed, ReceiverAt, SpaceAt, Space};

use chains::{Chains, class_at};
use entries::put_move;
use matching::fits_closed;
use records::{atom_at, is_variable, word_at};
use roles::Role;
use ways::KnownTable;

// Puts down for the four slots of the invoke at place b the places behind the delimitations of what is sent there, or 0.
fn put_scopes(s: &[u8], scopes: &Chains, b: usize, sent: &mut [u16])
    requires { Tabled s.now × ByAtom s.now scopes.now.heads.now scopes.now.next.now × (b < length s.now / 16) × (4 * (length s.now / 16) ≤ length sent.old) }
    ensures { (t : Term) → Holds s.now t → SentTo s.now t sent.old (4 * b) → SentTo s.now t sent.new (4 * (b + 1)) }
{
    for k in 0..4 {
        sent[4 * b + k] = scopes.behind(s, word_at(s, 16 * b + (6 + 2 * k))) as u16;
    }
}

// 13, from the side of the invokes: the place behind the delimitation of what is sent in each slot, or 0.
pub fn find_scopes(table: KnownTable, cast: &[Role], scopes: &Chains, sent: &mut [u16])
    requires { Played table.bytes.now table.ends.now cast.now × ByAtom table.bytes.now scopes.now.heads.now scopes.now.next.now × (4 * (length table.bytes.now / 16) ≤ length sent.old) }
    ensures { (t : Term) → TermOf table.entry t → Cast t cast.now → Sent table.entry.bytes.now t sent.new }
{
    for b in 0..table.bytes.len() / 16 {
        if cast[b] == Role::Sender {
            put_scopes(table.bytes, scopes, b, sent);
        }
    }
}

// What the list of meetings reads of a table: the table with the ends of its terms, the roles of its records, the chains of its delimitations and of the
// invokes that may be a party, and for each of these the fewest variables that a rival binds and the scopes of what it sends.
#[derive(Clone, Copy)]
pub struct Survey<'a> {
    pub table: KnownTable<'a>,
    pub cast: &'a [Role],
    pub scopes: Chains<'a>,
    pub senders: Chains<'a>,
    pub fewest: &'a [u8],
    pub sent: &'a [u16],
}

// 13, from the side of a receive: the invoke stands at `low` or behind it and before `end`, and the delimitation of the value in slot i, if there is one,
// before that of the variable there: the place behind it is below `top[i]`.
#[derive(Clone, Copy)]
pub struct Reach {
    low: usize,
    end: usize,
    top: [usize; 4],
}

// The place behind the delimitation of the variable at byte k, or 0 if no variable stands there.
fn low_of(s: &[u8], scopes: &Chains, k: usize) -> usize
    requires { ByAtom s.now scopes.now.heads.now scopes.now.next.now × (k + 1 < length s.now) }
    ensures { (t : Term) → Holds s.now t → result ≡ reach_low t (word s.now k) }
{
    if is_variable(atom_at(s, k)) {
        return scopes.behind(s, word_at(s, k));
    }
    0
}

fn end_of(ends: &[u16], n: usize, p: usize) -> usize
    requires { p ≤ length ends.now }
    ensures { result ≡ reach_end ends.now n p }
{
    if p == 0 { n } else { usize::from(ends[p - 1]) }
}

fn top_of(p: usize) -> usize
    ensures { result ≡ reach_top p }
{
    if p == 0 { 65536 } else { p }
}

// How far the receive at place a reaches.
fn reach_of(x: &Survey, a: usize) -> Reach
    requires { Surveyed x.now × (a < length x.now.table.bytes.now / 16) }
    ensures { (t : Term) → Table x.now.table.bytes.now x.now.table.ends.now t → ReachOf x.now.table.bytes.now x.now.table.ends.now t a result }
{
    let n = x.table.bytes.len() / 16;
    let p0 = low_of(x.table.bytes, &x.scopes, 16 * a + 6);
    let p1 = low_of(x.table.bytes, &x.scopes, 16 * a + 8);
    let p2 = low_of(x.table.bytes, &x.scopes, 16 * a + 10);
    let p3 = low_of(x.table.bytes, &x.scopes, 16 * a + 12);
    let left = end_of(x.table.ends, n, p0).min(end_of(x.table.ends, n, p1));
    let right = end_of(x.table.ends, n, p2).min(end_of(x.table.ends, n, p3));
    Reach {
        low: p0.max(p1).max(p2.max(p3)),
        end: left.min(right),
        top: [top_of(p0), top_of(p1), top_of(p2), top_of(p3)],
    }
}

// Whether the invoke at place b is in reach.
fn reaches(reach: Reach, sent: &[u16], b: usize) -> bool
    requires { 4 * b + 3 < length sent.now }
    ensures { result ≡ reach_test reach b (get_or sent.now (4 * b) 0) (get_or sent.now (4 * b + 1) 0) (get_or sent.now (4 * b + 2) 0) (get_or sent.now (4 * b + 3) 0) }
{
    (reach.low <= b)
        & (b < reach.end)
        & (usize::from(sent[4 * b]) < reach.top[0])
        & (usize::from(sent[4 * b + 1]) < reach.top[1])
        & (usize::from(sent[4 * b + 2]) < reach.top[2])
        & (usize::from(sent[4 * b + 3]) < reach.top[3])
}

// Whether the receive at place a and the invoke at place b, both of which may be parties, meet.
fn meet(x: &Survey, a: usize, b: usize, reach: Reach) -> bool
    requires { Surveyed x.now × (a < length x.now.table.bytes.now / 16) × (b < length x.now.table.bytes.now / 16) }
    ensures { (ends : List ℕ) (t : Term) → Facing x.now.table.bytes.now ends x.now.fewest.now x.now.sent.now a b reach t → result ≡ meets t a b }
{
    let Ok(l) = fits_closed(x.table.bytes, a, b) else {
        return false;
    };
    (l == usize::from(x.fewest[b])) && ((l == 0) || reaches(reach, x.sent, b))
}

// The meetings of the receive at place a, behind the m moves that stand there; how many stand there then. They are written if `writes` says so.
fn put_meetings_of(x: &Survey, a: usize, writes: bool, out: &mut [u8], m: usize) -> usize
    requires { Surveyed x.now × ReceiverAt x.now a × SpaceAt x.now a writes out.old m }
    ensures { (t : Term) → Table x.now.table.bytes.now x.now.table.ends.now t → Lists writes out.old m (meetings_at t a) out.new result }
{
    let reach = reach_of(x, a);
    let mut count = m;
    let mut e = x.senders.first(class_at(x.table.bytes, a));
    // A walk along a chain: the next place is read off it.
    while 0 < e {
        let b = e - 1;
        e = x.senders.after(b);
        if !meet(x, a, b, reach) {
            continue;
        }
        if writes {
            put_move(1, a as u16, b as u16, out, 6 * count);
        }
        count += 1;
    }
    count
}

// All meetings, behind the m moves that stand there; how many stand there then. They are written if `writes` says so, and else counted. (A flag: the caller
// goes on in the same buffer, and what a closure that borrows it has written is not known behind the walk.)
pub fn put_meetings(x: &Survey, writes: bool, out: &mut [u8], m: usize) -> usize
    requires { Surveyed x.now × Space x.now writes out.old m }
    ensures { (t : Term) → Table x.now.table.bytes.now x.now.table.ends.now t → MeetingsIn t writes out.old m out.new result }
{
    let mut count = m;
    for a in 0..x.table.bytes.len() / 16 {
        if x.cast[a] == Role::Receiver {
            count = put_meetings_of(x, a, writes, out, count);
        }
    }
    count
}
