// Binding: the records of a part of a table after a communication. Up to four variables become values, their delimitations go, and the invoke becomes nil.
ghost use Rattle.std.specs.Prelude.{◌≡◌, ◌+◌, ◌-◌, ◌*◌, ◌<◌, ◌≤◌, length, take, drop};
ghost use Rattle.records.specs.Rewrites.{put};
ghost use Rattle.renaming.specs.Bound.{first_image, takes_atom, image_atom, image_of_all, goes, record_bound, bound_records, Unchanged};

use crate::fields::{AtomMap, ClassedMap, put_classed};
use records::copying::{copy, copy_record, put_nil};
use records::{Atom, Binding, Variable, atom_at, closed, image, kinds, takes_variable};

// What the four slots of a pattern take.
#[derive(Clone, Copy)]
pub struct Bindings(pub [Option<Binding>; 4]);

// The value that the variable x takes by the first slot that takes it, or else the other atom.
fn first_image(taken: &[Option<Binding>; 4], x: Variable, other: Atom) -> Atom
    ensures { result ≡ first_image taken.now x other }
{
    for t in taken {
        if takes_variable(*t, x) {
            return image(*t, x, other);
        }
    }
    other
}

impl Bindings {
    // Whether one of the four takes the atom a.
    fn takes(&self, a: Atom) -> bool
        ensures { result ≡ takes_atom self.now.0 a }
    {
        match a {
            Atom::Variable(x) => self.0.iter().any(|t| takes_variable(*t, x)),
            _ => false,
        }
    }

    // What stands for the atom a: the value that it takes by the first of the four that takes it.
    fn image(&self, a: Atom) -> Atom
        ensures { result ≡ image_atom self.now.0 a }
    {
        match a {
            Atom::Variable(x) => first_image(&self.0, x, a),
            _ => a,
        }
    }

    // Whether the record at place i is a delimitation of an atom that one of the four takes.
    fn removes(&self, s: &[u8], i: usize) -> bool
        requires { 16 * i + 15 < length s.now }
        ensures { result ≡ goes self.now.0 (take 16 (drop (16 * i) s.now)) }
    {
        (s[16 * i] == kinds::DELIMITATION) & self.takes(atom_at(s, 16 * i + 2))
    }
}

impl ClassedMap for Bindings {
    ghost map = { λ ts. image_of_all ts.0 };

    fn classed(&self, a: u16) -> Atom {
        self.image(Atom::from(a))
    }
}

impl AtomMap for Bindings {
    ghost map = { λ ts. image_of_all ts.0 };

    fn map(&self, a: u16) -> u16 {
        u16::from(self.classed(a))
    }
}

// Writes what becomes of the record at place i, nil at place b, from byte `at` on; the answer is where writing goes on. A record that holds no variable stays.
fn put_bound(s: &[u8], i: usize, b: usize, taken: &Bindings, dst: &mut [u8], at: usize) -> usize
    requires { (16 * i + 15 < length s.now) × (at + length (record_bound taken.now.0 b i (take 16 (drop (16 * i) s.now))) ≤ length dst.old) }
    ensures { let r = record_bound taken.now.0 b i (take 16 (drop (16 * i) s.now)) in (dst.new ≡ put dst.old at r) × (result ≡ at + length r) }
{
    if i == b {
        put_nil(dst, at);
        return at + 16;
    }
    if closed(s, 16 * i) {
        copy_record(s, 16 * i, dst, at);
        return at + 16;
    }
    if taken.removes(s, i) {
        return at;
    }
    put_classed(s, i, taken, dst, at);
    at + 16
}

// Writes what becomes of the records at places `from` to `to` (not included), nil at place b, from byte `at` on; the answer is where writing goes on.
fn write_bound(
    s: &[u8],
    from: usize,
    to: usize,
    b: usize,
    taken: &Bindings,
    dst: &mut [u8],
    at: usize,
) -> usize
    requires { (16 * to ≤ length s.now) × (at + length (bound_records taken.now.0 b s.now from (to - from)) ≤ length dst.old) }
    ensures { let r = bound_records taken.now.0 b s.now from (to - from) in (dst.new ≡ put dst.old at r) × (result ≡ at + length r) }
{
    let mut next = at;
    for i in from..to {
        next = put_bound(s, i, b, taken, dst, next);
    }
    next
}

// The place x, or the end of `from` to `to` that is nearer to it.
fn nearest(x: usize, from: usize, to: usize) -> usize
    requires { from ≤ to }
    ensures { (from ≤ result) × (result ≤ to) × (from < result → result ≤ x) × (result < to → x ≤ result) }
{
    x.clamp(from, to)
}

// Copies the records at places `from` to `to` (not included) as a block, from byte `at` on; the answer is where writing goes on.
fn copy_records(s: &[u8], from: usize, to: usize, dst: &mut [u8], at: usize) -> usize
    requires { (from ≤ to) × (16 * to ≤ length s.now) × (at + 16 * (to - from) ≤ length dst.old) }
    ensures { (dst.new ≡ put dst.old at (take (16 * (to - from)) (drop (16 * from) s.now))) × (result ≡ at + 16 * (to - from)) }
{
    let len = 16 * (to - from);
    copy(s, 16 * from, len, dst, at);
    at + len
}

// The same as write_bound where what changes stands at places `low` to `high` (not included): all else is copied as a block.
pub fn write_within(
    s: &[u8],
    from: usize,
    to: usize,
    low: usize,
    high: usize,
    b: usize,
    taken: &Bindings,
    dst: &mut [u8],
    at: usize,
) -> usize
    requires from_le_to { (from ≤ to) × (16 * to ≤ length s.now) × Unchanged taken.now.0 b s.now low high }
    requires from_in_bounds { at + length (bound_records taken.now.0 b s.now from (to - from)) ≤ length dst.old }
    ensures { let r = bound_records taken.now.0 b s.now from (to - from) in (dst.new ≡ put dst.old at r) × (result ≡ at + length r) }
{
    let first = nearest(low, from, to);
    let last = nearest(high, first, to);
    let front = copy_records(s, from, first, dst, at);
    let back = write_bound(s, first, last, b, taken, dst, front);
    copy_records(s, last, to, dst, back)
}
