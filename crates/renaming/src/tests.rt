// Maps from numbers to numbers, for which no crate here calls `put_mapped` and `AtomMap::map`, on records written out by hand.
ghost use Rattle.std.specs.Prelude.{cond, eqb};

use crate::binding::Bindings;
use crate::fields::{AtomMap, put_mapped};
use records::{Atom, Binding};

// A nil, then an invoke at the endpoint of the variables 32,768 and 32,769, whose tuple is 32,770, 7, 32,768 and 32,771, and whose last two bytes are 1 and 2.
static TABLE: [u8; 32] = [
    0, 0, 0, 0, 0, 0, 0, 0, 0, 0, 0, 0, 0, 0, 0, 0, 2, 4, 0, 128, 1, 128, 2, 128, 7, 0, 0, 128, 3,
    128, 1, 2,
];

// The invoke where 32,768 is 300, 32,770 is 5 and 32,771 is 32,767, with a byte of 170 on either side.
static BOUND: [u8; 18] = [
    170, 2, 4, 44, 1, 1, 128, 5, 0, 7, 0, 44, 1, 255, 127, 1, 2, 170,
];

// The invoke where 32,768 and 32,771 change places, with the same bytes on either side.
static SWAPPED: [u8; 18] = [
    170, 2, 4, 3, 128, 1, 128, 2, 128, 7, 0, 3, 128, 0, 128, 1, 2, 170,
];

// Two atoms that stand for each other; every other stands for itself.
#[derive(Clone, Copy)]
struct Swap(u16, u16);

impl AtomMap for Swap {
    ghost map = { λ s a. cond (eqb a s.0) s.1 (cond (eqb a s.1) s.0 a) };

    fn map(&self, a: u16) -> u16 {
        if a == self.0 {
            self.1
        } else if a == self.1 {
            self.0
        } else {
            a
        }
    }
}

// What the variable takes, both told by their numbers.
fn bound(variable: u16, value: u16) -> Option<Binding> {
    match (Atom::from(variable), Atom::from(value)) {
        (Atom::Variable(variable), Atom::Value(value)) => Some(Binding { variable, value }),
        _ => None,
    }
}

// The record at place 1 as the map has it, with a byte of 170 on either side.
fn written<M: AtomMap>(m: &M) -> [u8; 18] {
    let mut out = [170u8; 18];
    put_mapped(&TABLE, 1, m, &mut out, 1);
    out
}

#[test]
fn a_map_of_numbers_tells_and_writes_atoms(rt: HostRuntime) {
    let taken = Bindings([
        bound(32768, 300),
        bound(32770, 5),
        bound(32771, 32767),
        None,
    ]);
    for (atom, want) in [
        (0, 0),
        (7, 7),
        (32768, 300),
        (32769, 32769),
        (32771, 32767),
        (49152, 49152),
    ] {
        assert_eq!(rt; taken.map(atom), want, "at {atom}");
    }
    assert_eq!(rt; written(&taken), BOUND);
    assert_eq!(rt; written(&Swap(32768, 32771)), SWAPPED);
}
