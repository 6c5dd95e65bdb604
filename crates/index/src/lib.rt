// Index: a quick test of scopes that only ever accepts (refusals 6 and 7; of refusal 2, that no variable stands twice in a pattern), with an index of the
// delimitations: each atom has a slot there, and where two delimited atoms meet in one the test gives up. The lists of the delimitations and of the records that
// use atoms are the caller's.
#![tactic(auto)]

ghost use Rattle.std.specs.Prelude.{◌≡◌, true, ℕ, ◌+◌, ◌*◌, ◌-◌, ◌/◌, ◌<◌, ◌≤◌, length, get_or};
ghost use Rattle.cows.specs.Limits.{max_records};
ghost use Rattle.ranges.specs.Lists.{Inside};
ghost use Rattle.index.specs.Index.{Slots, slot_of, Entering, Entered, fault_by, Clear, Fine, UsesRight, TableLists, BlankIndex, ShowsBound, ShowsPatterns};

use records::{kinds, word_at};
use rows::distinct4;

// An index that has its entries, and how it spreads the atoms over its slots (`slot`).
#[derive(Clone, Copy)]
struct Index<'a> {
    slots: &'a [u64],
    shift: usize,
    mask: usize,
    ghost spread: { Slots slots.now shift mask },
}

// The slot of the atom a: its low bits, and above `shift` also which set it is of. Both numbers come from the caller, and one code serves every index: made for one
// mask and shift, the test of `use_fault` becomes a branch that is mispredicted where some atoms are delimited and others not, and a check takes twice the time.
fn slot(a: u16, shift: usize, mask: usize) -> usize
    requires { shift < 64 }
    ensures is { result ≡ slot_of shift mask a }
    ensures inside { result ≤ mask }
{
    let w = usize::from(a);
    (w ^ ((w >> 14) << shift)) & mask
}

// The entry of the delimitation of a at place d, whose term ends at `end`.
fn entry(a: u16, d: u16, end: u16) -> u64
    requires { end ≤ 32768 }
    ensures { result ≡ 32768 + d + 65536 * (32768 - end) + 4294967296 * a }
{
    32768 + u64::from(d) + 65536 * (32768 - u64::from(end)) + 4294967296 * u64::from(a)
}

// Enters the delimitations at the places of the list; false if two meet in a slot.
fn enter(
    s: &[u8],
    ends: &[u16],
    marks: &[u16],
    slots: &mut [u64],
    shift: usize,
    mask: usize,
) -> bool
    requires { Entering s.now ends.now marks.now slots.old shift mask }
    ensures { result ≡ true → Entered s.now ends.now marks.now (length marks.now) slots.new shift mask }
{
    for d in marks {
        let a = word_at(s, 16 * usize::from(*d) + 2);
        let p = slot(a, shift, mask);
        if 65535 < slots[p] {
            return false;
        }
        slots[p] = entry(a, *d, ends[usize::from(*d)]);
    }
    true
}

impl<'a> Index<'a> {
    // The fault of a use of a: by the entry of a, if its slot has that, and else a itself. `at` is 65,535 times the place of the use: bit 15 is set if that is not
    // behind the delimitation, or a is no value; bit 31 if it is not before the end.
    fn use_fault(&self, a: u16, at: u64) -> u64
        requires { at < 4294967296 }
        ensures { result ≡ fault_by self.now.slots.now self.now.shift self.now.mask a at }
    {
        let e = self.slots[slot(a, self.shift, self.mask)];
        let b = u64::from(a);
        if e / 4294967296 == b {
            e % 4294967296 + at
        } else {
            b
        }
    }

    // The faults of the three atoms from byte k on.
    fn faults(&self, s: &[u8], k: usize, at: u64) -> u64
        requires { (at < 4294967296) × (k + 5 < length s.now) }
        ensures { Clear result → Fine s.now self.now.slots.now self.now.shift self.now.mask k at }
    {
        self.use_fault(word_at(s, k), at)
            | self.use_fault(word_at(s, k + 2), at)
            | self.use_fault(word_at(s, k + 4), at)
    }

    // The uses of the records at the places of the list: of an endpoint and a first slot, or of a kill; of the other slots of a tuple, where the second is used.
    // And no variable stands twice in a receive.
    fn uses_right(&self, s: &[u8], users: &[u16]) -> bool
        requires { Inside s.now users.now × (length s.now / 16 ≤ max_records) }
        ensures { result ≡ true → (q : ℕ) → q < length users.now → UsesRight s.now self.now.slots.now self.now.shift self.now.mask (get_or users.now q 0) }
    {
        let mut fault: u64 = 0;
        let mut apart = true;
        for j in users {
            let k = 16 * usize::from(*j);
            let at = 65535 * u64::from(*j);
            let x = word_at(s, k + 8);
            fault |= self.faults(s, k + 2, at);
            if x != 0 {
                fault |= self.faults(s, k + 8, at);
                let d = distinct4(word_at(s, k + 6), x, word_at(s, k + 10), word_at(s, k + 12));
                apart &= (s[k] != kinds::RECEIVE) | d;
            }
        }
        apart & (fault & 2147516416 == 0)
    }
}

// Refusals 6 and 7 do not apply, and no variable stands twice in a pattern, by an index whose slots are lent, blank before. An unused slot of a tuple has 0, as if 0
// were its atom: slot 0 of the index is set so that no use of 0 has a fault.
pub fn indexed_right(
    s: &[u8],
    ends: &[u16],
    marks: &[u16],
    users: &[u16],
    slots: &mut [u64],
    shift: usize,
    mask: usize,
) -> bool
    requires { TableLists s.now ends.now marks.now users.now × BlankIndex slots.old shift mask }
    ensures { ShowsBound result s.now × ShowsPatterns result s.now }
{
    slots[0] = 32767;
    if !enter(s, ends, marks, slots, shift, mask) {
        return false;
    }
    let index = Index { slots, shift, mask };
    index.uses_right(s, users)
}
