// Rivals: for each invoke that may be a party of a meeting, the fewest variables that a ready receive binds which fits it (15).
#![tactic(auto)]

ghost use Rattle.std.specs.Prelude.{◌≡◌, ℕ, ◌/◌, ◌<◌, ◌≤◌, length, get_or};
ghost use Rattle.cows.specs.Terms.{Term, size};
ghost use Rattle.records.specs.Holds.{Holds};
ghost use Rattle.ways.specs.TermOf.{TermOf};
ghost use Rattle.roles.specs.Roles.{unfit, Cast};
ghost use Rattle.chains.specs.Chains.{BySender};
ghost use Rattle.roles.specs.Played.{Played, Fewest};
ghost use Rattle.rivals.specs.Rivals.{LoweredAt, Rivals, LoweredAll};

use chains::{Chains, class_at};
use matching::fits_closed;
use roles::Role;
use ways::KnownTable;

// Counts a ready receive that fits the invoke at place b and binds l variables. (No `min`: l has to fit a byte only where it is less.)
fn put_fewer(l: usize, b: usize, fewest: &mut [u8])
    requires { b < length fewest.old }
    ensures { LoweredAt b l fewest.old fewest.new }
{
    if l < usize::from(fewest[b]) {
        fewest[b] = l as u8;
    }
}

// The record at place r, if it is a ready receive, against the invokes along the chain of its endpoint's class.
fn lower(s: &[u8], cast: &[Role], senders: &Chains, r: usize, fewest: &mut [u8])
    requires { Rivals s.now cast.now senders.now.heads.now senders.now.next.now r fewest.old }
    ensures { (t : Term) → Holds s.now t → Cast t cast.now → LoweredAll t r fewest.old fewest.new }
{
    let role = cast[r];
    if !((role == Role::Receiver) | (role == Role::Rival)) {
        return;
    }
    let mut e = senders.first(class_at(s, r));
    // A walk along a chain: the next place is read off it.
    while 0 < e {
        let b = e - 1;
        e = senders.after(b);
        let Ok(l) = fits_closed(s, r, b) else {
            continue;
        };
        put_fewer(l, b, fewest);
    }
}

// All ready receives, each along the chain of its endpoint's class; `fewest` begins with 5 at every place.
pub fn find_fewest(table: KnownTable, cast: &[Role], senders: &Chains, fewest: &mut [u8])
    requires { Played table.bytes.now table.ends.now cast.now × BySender table.bytes.now cast.now senders.now.heads.now senders.now.next.now × (length table.bytes.now / 16 ≤ length fewest.old) }
    ensures { (t : Term) → TermOf table.entry t → Cast t cast.now → ((b : ℕ) → b < size t → get_or fewest.old b 0 ≡ unfit) → Fewest t fewest.new }
{
    for r in 0..table.bytes.len() / 16 {
        lower(table.bytes, cast, senders, r, fewest);
    }
}
