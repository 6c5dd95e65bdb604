// Elapse (time): every live wait falls by d, and to 0 if it holds less.
#![tactic(auto)]

pub mod waits;

ghost use Rattle.std.specs.Prelude.{◌≡◌, cond, List, ◌++◌, ℕ, ◌+◌, ◌*◌, ◌-◌, ◌≤◌, ◌<◌, length, take, drop};
ghost use Rattle.cows.specs.Terms.{Term};
ghost use Rattle.cows.specs.Kinds.{live_kind};
ghost use Rattle.cows.specs.Format.{encode};
ghost use Rattle.cows.specs.Moves.{elapse, elapse_by};
ghost use Rattle.ways.specs.Known.{Table, Known};
ghost use Rattle.plans.specs.Plans.{Planned, Asks, Gives};

use plans::{Plan, Refusal};
use records::copying::{copy, put_word};
use records::{kinds, word_at};
use ways::{KnownTable, live_kind};

// The move by the time d, whatever the waits hold; the place of its plan is the root.
pub fn judge(s: &[u8], d: u16) -> Result<Plan, Refusal>
    ensures { (ends : List ℕ) (t : Term) → Table s.now ends t → Planned (elapse_by t d) 0 result }
{
    if d == 0 {
        return Err(Refusal::Timeless);
    }
    Ok(Plan {
        records: s.len() / 16,
        from: 0,
    })
}

// An interval lowered by d, to 0 at least.
fn lower(n: u16, d: u16) -> u16
    ensures { result ≡ n - d }
{
    n.saturating_sub(d)
}

// Where a walk over the live waits goes on from the record of this kind at place p, whose term ends at `end`: at the next record if time passes the kind, else behind the term.
fn next_live(kind: u8, p: usize, end: usize) -> usize
    requires { p < end }
    ensures { result ≡ cond (live_kind kind) (p + 1) end }
{
    if live_kind(kind) {
        return p + 1;
    }
    end
}

// Each live wait of the table of n records at the start of t lowered, in one walk. What stands behind a receive or a wait, or in a replication, is passed by.
pub fn lower_waits(t: &mut [u8], ends: &[u16], n: usize, d: u16)
    requires { (16 * n ≤ length t.old) × Known (take (16 * n) t.old) ends.now }
    ensures { (u : Term) → Table (take (16 * n) t.old) ends.now u → t.new ≡ encode (elapse d u) ++ drop (16 * n) t.old }
{
    let mut p = 0;
    // A walk by the ends: where it goes on depends on the record.
    while p < n {
        let kind = t[16 * p];
        let next = next_live(kind, p, usize::from(ends[p]));
        if kind == kinds::WAIT {
            put_word(lower(word_at(t, 16 * p + 14), d), t, 16 * p + 14);
        }
        p = next;
    }
}

// Its successor: the table as it is, and then its live waits lowered.
pub fn write(table: KnownTable, d: u16, out: &mut [u8])
    requires { Asks (λ t. elapse_by t d) (λ t. 0) table.bytes.now table.ends.now 0 out.old }
    ensures { Gives (λ t. elapse_by t d) table.entry.bytes.now table.entry.ends.now out.old out.new }
{
    let n = table.bytes.len() / 16;
    copy(table.bytes, 0, 16 * n, out, 0);
    lower_waits(out, table.ends, n, d);
}
