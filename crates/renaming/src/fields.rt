// Records whose atoms change: kind, tuple count and interval are copied, the six fields for atoms are written anew.
ghost use Rattle.std.specs.Prelude.{◌≡◌, ℕ, ◌+◌, ◌-◌, ◌*◌, ◌<◌, ◌≤◌, length, take, drop};
ghost use Rattle.records.specs.Atoms.{number_of};
ghost use Rattle.records.specs.Rewrites.{put};
ghost use Rattle.renaming.specs.Mapped.{map_record, mapped, named};

use crate::names::name_of;
use records::copying::{copy, put_word};
use records::{Atom, word_at};

// What stands for each atom: a number for a number.
pub trait AtomMap {
    ghost map: { Self → ℕ → ℕ };

    fn map(&self, a: u16) -> u16
        ensures { result ≡ map self.now a };
}

// What stands for each atom, by its number: an atom that is classified.
pub trait ClassedMap {
    ghost map: { Self → ℕ → ℕ };

    fn classed(&self, a: u16) -> Atom
        ensures { number_of result ≡ map self.now a };
}

// The names that were chosen: numbers, each classified when it is written.
#[derive(Clone, Copy)]
struct Names<'a>(&'a [u16]);

impl<'a> ClassedMap for Names<'a> {
    ghost map = { λ n. named n.0.now };

    fn classed(&self, a: u16) -> Atom {
        Atom::from(name_of(self.0, a))
    }
}

// A map from numbers to numbers, each classified when it is written.
#[derive(Clone, Copy)]
struct Numbers<'a, M>(&'a M);

impl<'a, M: AtomMap> ClassedMap for Numbers<'a, M> {
    ghost map = { λ n. M.map n.0.now };

    fn classed(&self, a: u16) -> Atom {
        Atom::from(self.0.map(a))
    }
}

// Writes the record at place i with what stands for its atoms: the six fields at bytes 2, 4, 6, 8, 10 and 12, in use or not.
pub fn put_classed<M: ClassedMap>(s: &[u8], i: usize, m: &M, dst: &mut [u8], at: usize)
    requires { (16 * i + 15 < length s.now) × (at + 15 < length dst.old) }
    ensures { dst.new ≡ put dst.old at (map_record (M.map m.now) (take 16 (drop (16 * i) s.now))) }
{
    copy(s, 16 * i, 2, dst, at);
    for k in 1..7 {
        put_word(
            u16::from(m.classed(word_at(s, 16 * i + 2 * k))),
            dst,
            at + 2 * k,
        );
    }
    copy(s, 16 * i + 14, 2, dst, at + 14);
}

// The same by a map from numbers to numbers.
pub fn put_mapped<M: AtomMap>(s: &[u8], i: usize, m: &M, dst: &mut [u8], at: usize)
    requires { (16 * i + 15 < length s.now) × (at + 15 < length dst.old) }
    ensures { dst.new ≡ put dst.old at (map_record (M.map m.now) (take 16 (drop (16 * i) s.now))) }
{
    put_classed(s, i, &Numbers(m), dst, at);
}

// Writes the records at places `from` to `to` (not included) from byte `at` on, with the names of their atoms.
pub fn copy_named(s: &[u8], from: usize, to: usize, names: &[u16], dst: &mut [u8], at: usize)
    requires { (from ≤ to) × (16 * to ≤ length s.now) × (at + 16 * (to - from) ≤ length dst.old) }
    ensures { dst.new ≡ put dst.old at (mapped (named names.now) s.now from (to - from)) }
{
    for i in from..to {
        put_classed(s, i, &Names(names), dst, at + 16 * (i - from));
    }
}
