// Losses: how many records a firing kill takes away, in one walk over the term inside its delimitation.
ghost use Rattle.std.specs.Prelude.{◌≡◌, ◌+◌, ◌/◌, ◌<◌, length};
ghost use Rattle.cows.specs.Terms.{Term, size};
ghost use Rattle.cows.specs.Places.{sub};
ghost use Rattle.ways.specs.TermOf.{TermOf};
ghost use Rattle.kill.specs.Losses.{left};

use records::kinds;
use ways::KnownTable;

// The records that the term at place p loses to a kill at place a: those behind the first of each term that becomes nil. An end is read only where a term may be
// passed whole, so that a record passed alone does not wait for it.
pub fn lost(table: KnownTable, p: usize, a: usize) -> usize
    requires { p < length table.bytes.now / 16 }
    ensures { (t : Term) → TermOf table.entry t → result + left a p (sub t p) ≡ size (sub t p) }
{
    let end = usize::from(table.ends[p]);
    let mut gone = 0;
    let mut i = p;
    // A walk by the ends: where it goes on depends on the record.
    while i < end {
        let kind = table.bytes[16 * i];
        if kind < kinds::RECEIVE {
            i += 1;
            continue;
        }
        if kind < kinds::PARALLEL {
            let next = usize::from(table.ends[i]);
            gone += next - i - 1;
            i = next;
            continue;
        }
        if kind == kinds::PROTECTION {
            let next = usize::from(table.ends[i]);
            if (a < i) | (next <= a) {
                i = next;
                continue;
            }
        }
        i += 1;
    }
    gone
}
