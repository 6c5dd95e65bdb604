// Chains: the records of a table that pass a test, in classes by their first two atoms, each chain from the first place to the last. `heads` has for a class
// the place behind its first record, and `next` for a record the place behind the next one of its class, or 0.
#![tactic(auto)]

ghost use Rattle.std.specs.Prelude.{◌≡◌, Bool, ℕ, ◌+◌, ◌*◌, ◌/◌, ◌<◌, ◌≤◌, length, get_or};
ghost use Rattle.cows.specs.Terms.{Term};
ghost use Rattle.records.specs.Holds.{Holds};
ghost use Rattle.roles.specs.Roles.{behind_of};
ghost use Rattle.chains.specs.Chains.{classes, class_of_pair, class_at, Chained, Chainable, ByAtom, BySender};

use records::{kinds, word_at};
use roles::Role;

// The class of two numbers.
fn class_of(first: u16, second: u16) -> usize
    ensures { (result ≡ class_of_pair first second) × (result < classes) }
{
    (31 * usize::from(first) + usize::from(second)) % 256
}

// The class of the record at place i.
pub fn class_at(s: &[u8], i: usize) -> usize
    requires { 16 * i + 15 < length s.now }
    ensures { (result ≡ class_at s.now i) × (result < classes) }
{
    class_of(word_at(s, 16 * i + 2), word_at(s, 16 * i + 4))
}

// Chains the records that pass, from the last to the first.
fn chain<F: Fn(usize) -> bool>(s: &[u8], passes: F, heads: &mut [u16], next: &mut [u16])
    requires room { Chainable s.now heads.old next.old }
    requires test { (i : ℕ) → i < length s.now / 16 → F.pre passes i }
    ensures { (f : ℕ → Bool) → ((i : ℕ) → i < length s.now / 16 → (b : Bool) → F.post passes i b → b ≡ f i) → Chained f (class_at s.now) (length s.now / 16) heads.new next.new 0 }
{
    for i in (0..s.len() / 16).rev() {
        if passes(i) {
            let c = class_at(s, i);
            next[i] = heads[c];
            heads[c] = (i + 1) as u16;
        }
    }
}

// Chains the delimitations of a table.
pub fn chain_scopes(s: &[u8], heads: &mut [u16], next: &mut [u16])
    requires { Chainable s.now heads.old next.old }
    ensures { ByAtom s.now heads.new next.new }
{
    chain(s, |i| s[16 * i] == kinds::DELIMITATION, heads, next);
}

// Chains the invokes that may be a party, by their roles.
pub fn chain_senders(s: &[u8], cast: &[Role], heads: &mut [u16], next: &mut [u16])
    requires { Chainable s.now heads.old next.old × (length s.now / 16 ≤ length cast.now) }
    ensures { BySender s.now cast.now heads.new next.new }
{
    chain(s, |i| cast[i] == Role::Sender, heads, next);
}

// The chains of a table, to be walked. 0 stands for no place, since the arrays hold places that the next one is behind.
#[derive(Clone, Copy)]
pub struct Chains<'a> {
    pub heads: &'a [u16],
    pub next: &'a [u16],
}

impl<'a> Chains<'a> {
    // The place behind the first record of the class, or 0.
    pub fn first(&self, class: usize) -> usize
        requires { class < length self.now.heads.now }
        ensures { result ≡ get_or self.now.heads.now class 0 }
    {
        usize::from(self.heads[class])
    }

    // The place behind the next record of its class, or 0.
    pub fn after(&self, i: usize) -> usize
        requires { i < length self.now.next.now }
        ensures { result ≡ get_or self.now.next.now i 0 }
    {
        usize::from(self.next[i])
    }

    // The place behind the delimitation of the atom, or 0.
    pub fn behind(&self, s: &[u8], atom: u16) -> usize
        requires { ByAtom s.now self.now.heads.now self.now.next.now }
        ensures { (t : Term) → Holds s.now t → result ≡ behind_of t atom }
    {
        let mut e = self.first(class_of(atom, 0));
        // A walk along a chain: the next place is read off it.
        while 0 < e {
            if word_at(s, 16 * (e - 1) + 2) == atom {
                return e;
            }
            e = self.after(e - 1);
        }
        0
    }
}
