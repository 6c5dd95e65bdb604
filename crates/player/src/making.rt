// The successor of an allowed move, with its ends: a time or a floating is made where the table lies, any other move goes to the other buffer. A time lists the
// live waits in the other buffer, and the times that follow it find them there, until a move goes to that buffer or changes a place of a wait.
ghost use Rattle.cows.specs.Terms.{Term};
ghost use Rattle.ways.specs.Known.{Table};
ghost use Rattle.elapse.specs.Waits.{wait_places, Lists};
ghost use Rattle.player.specs.Turns.{held};
ghost use Rattle.player.specs.Making.{CanList, CanMake, Makes};

use crate::cutting::cut_ends;
use crate::turns::Kept;
use elapse::waits;
use plans::cutting::left;
use proposals::Move;
use ways::KnownTable;

// How many live waits the table that is kept in t has: `to` lists them, from before or from now on.
fn count_waits(kept: Kept, t: &[u8], ends: &[u16], to: &mut [u8]) -> usize
    requires { CanList kept t.now ends.now to.old }
    ensures { (v : Term) → Table (held kept.records t.now) ends.now v → Lists to.new result (wait_places v) }
{
    if let Some(listed) = kept.waits {
        return listed;
    }
    waits::list_waits(t, ends, kept.records, to)
}

// The move m on the table that is kept in t; `from` is the place of its plan, `records` the number of the successor's records, and `to` the other buffer.
// After a time, which changes no shape, the ends are those of the table before; after a floating they are lifted with the records, and after an expiry, or a
// meeting that binds nothing, they are cut. A floating over one record, which is right above, changes no place of a wait. What is kept then.
pub fn make(
    kept: Kept,
    t: &mut [u8],
    ends: &mut [u16],
    m: Move,
    from: usize,
    records: usize,
    to: &mut [u8],
) -> Kept
    requires { CanMake kept t.old ends.old m from records to.old }
    ensures { Makes kept t.old ends.old m records t.new to.new ends.new result }
{
    let second = kept.second;
    if let Move::Elapse(d) = m {
        let w = count_waits(kept, t, ends, to);
        waits::lower_listed(t, to, w, d);
        return Kept {
            second,
            records,
            waits: Some(w),
        };
    }
    if let Move::Extrude(a) = m {
        extrude::lift_in(t, a, from);
        extrude::lift_ends(ends, a, from);
        let right_above = a == from + 1;
        return Kept {
            second,
            records,
            waits: kept.waits.filter(|_| right_above),
        };
    }
    let there = Kept {
        second: !second,
        records,
        waits: None,
    };
    let n = kept.records;
    let size = 16 * n;
    let after = 16 * records;
    let table = KnownTable {
        bytes: &t[..size],
        ends,
    };
    moves::write(table, m, from, to);
    if let Move::Timeout(a) = m {
        cut_ends(ends, n, a, from);
        return there;
    }
    if let Move::Communicate(a, b) = m {
        if left(ends, n, a, from) == records {
            cut_ends(ends, n, a, from);
            return there;
        }
    }
    records::ends::ends(&to[..after], ends);
    there
}
