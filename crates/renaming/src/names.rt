// The names of atoms in a copy: every atom that is taken is entered under itself, then each that the body delimits gets a new one.
ghost use Rattle.std.specs.Prelude.{◌≡◌, true, false, List, [], ◌∷◌, ◌++◌, ℕ, ◌+◌, ◌-◌, ◌*◌, ◌/◌, ◌≤◌, ◌<◌, length, take, drop};
ghost use Rattle.cows.specs.Basics.{every};
ghost use Rattle.cows.specs.Terms.{Term, atoms};
ghost use Rattle.cows.specs.Format.{word};
ghost use Rattle.records.specs.Holds.{Holds};
ghost use Rattle.renaming.specs.Mapped.{across, slot_of, named};
ghost use Rattle.renaming.specs.Names.{action, fields, delimited, fits_in, store, entered, Entering, set_of, NextFree, Marks, Wanting, AtomWanted, NewAtom, Marking, Marked, Chosen};

use records::{Atom, kinds, limits, word_at};

// Where the names have the atom a: the first atoms of each quarter come first.
fn slot(a: u16) -> usize
    ensures { result ≡ slot_of a }
{
    usize::from(a % 16384) * 4 + usize::from(a / 16384)
}

// The name of the atom a; 0 if it has none, or no place among the names.
pub fn name_of(names: &[u16], a: u16) -> u16
    ensures { result ≡ named names.now a }
{
    names.get(slot(a)).copied().unwrap_or(0)
}

// Whether the atom a has a place among the names.
fn fits(names: &[u16], a: u16) -> bool
    ensures { result ≡ fits_in (length names.now) a }
{
    slot(a) < names.len()
}

// Enters the name v of the atom a.
fn enter(names: &mut [u16], a: u16, v: u16)
    requires { slot_of a < length names.old }
    ensures { names.new ≡ store names.old a v }
{
    names[slot(a)] = v;
}

// Whether each of the atoms has a place.
fn all_fit(names: &[u16], atoms: &[u16]) -> bool
    ensures { result ≡ every (fits_in (length names.now)) atoms.now }
{
    atoms.iter().all(|a| fits(names, *a))
}

// Enters each of the atoms under itself, if all have places.
fn enter_all(names: &mut [u16], atoms: &[u16]) -> bool
    ensures { Entering names.old atoms.now names.new result }
{
    if !all_fit(names, atoms) {
        return false;
    }
    for a in atoms {
        enter(names, *a, *a);
    }
    true
}

// Enters the atoms behind the first of the record at byte k under themselves, if all have places. Those not in use are 0, which is no atom.
fn mark_action(s: &[u8], k: usize, names: &mut [u16]) -> bool
    requires { k + 15 < length s.now }
    ensures { Entering names.old (action (take 16 (drop k s.now))) names.new result }
{
    let atoms = [
        word_at(s, k + 4),
        word_at(s, k + 6),
        word_at(s, k + 8),
        word_at(s, k + 10),
        word_at(s, k + 12),
    ];
    enter_all(names, &atoms)
}

// Enters the atoms of the record at byte k under themselves, if all have places.
fn mark_record(s: &[u8], k: usize, names: &mut [u16]) -> bool
    requires { k + 15 < length s.now }
    ensures { Entering names.old (fields (take 16 (drop k s.now))) names.new result }
{
    let p = word_at(s, k + 2);
    if p == 0 {
        return true;
    }
    if !fits(names, p) {
        return false;
    }
    enter(names, p, p);
    if word_at(s, k + 4) == 0 {
        return true;
    }
    mark_action(s, k, names)
}

// Enters every atom that occurs in the table under itself: it is then taken, with those that were before. False if one has no place.
pub fn mark(s: &[u8], names: &mut [u16]) -> bool
    ensures { (result ≡ every (fits_in (length names.old)) (across fields s.now 0 (length s.now / 16))) × (result ≡ true → (t : Term) (taken : List ℕ) → Holds s.now t → Marks names.old taken → Marks names.new (atoms t ++ taken)) }
{
    for i in 0..s.len() / 16 {
        if !mark_record(s, 16 * i, names) {
            return false;
        }
    }
    true
}

// Whether a record at places `from` to `to` (not included) delimits an atom.
pub fn delimits(s: &[u8], from: usize, to: usize) -> bool
    requires { 16 * to ≤ length s.now }
    ensures { result ≡ false → across delimited s.now from (to - from) ≡ [] }
{
    for i in from..to {
        if s[16 * i] == kinds::DELIMITATION {
            return true;
        }
    }
    false
}

// The number of the atom's set: values, variables, labels.
fn set_of(a: u16) -> usize
    ensures { (result ≡ set_of a) × (result < 3) }
{
    match Atom::from(a) {
        Atom::Value(_) => 0,
        Atom::Variable(_) => 1,
        Atom::Label(_) => 2,
        Atom::None => 2,
    }
}

// The first atom from `from` on that has no name.
fn next_free(names: &[u16], from: u16) -> u16
    ensures { NextFree names.now from result }
{
    for i in from..65535 {
        if name_of(names, i) == 0 {
            return i;
        }
    }
    65535
}

// A new atom: the smallest of d's set that is not taken, which it then is; next[k] is where the search in set k goes on.
pub fn new_atom(d: u16, names: &mut [u16], next: &mut [u16]) -> u16
    requires { AtomWanted names.old next.old d }
    ensures { (taken : List ℕ) → Wanting names.old next.old taken d → NewAtom names.old next.old d names.new next.new result taken }
{
    let k = set_of(d);
    let new = next_free(names, next[k]);
    enter(names, new, new);
    next[k] = new + 1;
    new
}

// Renames every atom that the records at places `from` to `to` (not included) delimit, in record order.
pub fn choose(s: &[u8], from: usize, to: usize, names: &mut [u16])
    requires { Marked s.now from to names.old }
    ensures { (body : Term) (taken : List ℕ) → Marking s.now from to names.old body taken → Chosen taken body names.new }
{
    let mut next: [u16; 3] = [1, limits::FIRST_VARIABLE, limits::FIRST_LABEL];
    for i in from..to {
        if s[16 * i] != kinds::DELIMITATION {
            continue;
        }
        let d = word_at(s, 16 * i + 2);
        let new = new_atom(d, names, &mut next);
        enter(names, d, new);
    }
}
