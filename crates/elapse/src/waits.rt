// The live waits of a table, listed by their places, two bytes each: with the list time does not go over the table, and the list is right after it too.
ghost use Rattle.std.specs.Prelude.{◌≡◌, List, ◌++◌, ℕ, ◌*◌, ◌≤◌, length, take};
ghost use Rattle.cows.specs.Terms.{Term};
ghost use Rattle.cows.specs.Format.{encode};
ghost use Rattle.cows.specs.Moves.{elapse};
ghost use Rattle.ways.specs.Known.{Table, Known};
ghost use Rattle.elapse.specs.Waits.{wait_places, Lists, Listed};

use crate::{lower, next_live};
use records::copying::put_word;
use records::{kinds, word_at};

// Lists the live waits of the table of n records at the start of t, in one walk as time goes; how many they are.
pub fn list_waits(t: &[u8], ends: &[u16], n: usize, list: &mut [u8]) -> usize
    requires { (16 * n ≤ length t.now) × (2 * n ≤ length list.old) × Known (take (16 * n) t.now) ends.now }
    ensures { (u : Term) → Table (take (16 * n) t.now) ends.now u → Lists list.new result (wait_places u) }
{
    let mut p = 0;
    let mut w = 0;
    // A walk by the ends: where it goes on depends on the record.
    while p < n {
        let kind = t[16 * p];
        let next = next_live(kind, p, usize::from(ends[p]));
        if kind == kinds::WAIT {
            put_word(p as u16, list, 2 * w);
            w += 1;
        }
        p = next;
    }
    w
}

// Each of the w listed waits of the table at the start of t lowered.
pub fn lower_listed(t: &mut [u8], list: &[u8], w: usize, d: u16)
    requires { Listed t.old list.now w }
    ensures { (u : Term) (rest : List ℕ) → t.old ≡ encode u ++ rest → Lists list.now w (wait_places u) → t.new ≡ encode (elapse d u) ++ rest }
{
    for i in 0..w {
        let k = 16 * usize::from(word_at(list, 2 * i)) + 14;
        put_word(lower(word_at(t, k), d), t, k);
    }
}
