// Scopes: refusals 6 and 7 in one forward pass over the records, with a directory of the atoms that the table delimits.
// The directory keeps a number for each atom: 0 if the table does not delimit it, 1 if no delimitation of it has been passed yet, and else one more
// than the farthest end of a delimitation of it passed so far. It is kept in pages of 256 atoms, given out as they are wanted; page 0 stays empty.
#![tactic(auto)]

ghost use Rattle.std.specs.Prelude.{◌≡◌, Bool, true, List, ℕ, ◌+◌, ◌*◌, ◌/◌, ◌<◌, ◌≤◌, length, get_or};
ghost use Rattle.cows.specs.Limits.{max_records};
ghost use Rattle.cows.specs.Basics.{any, every};
ghost use Rattle.cows.specs.Terms.{Term, atom};
ghost use Rattle.cows.specs.Places.{first, spot_at};
ghost use Rattle.cows.specs.Tables.{unbound, again, escaped, clash};
ghost use Rattle.records.specs.Ends.{EndsFrom};
ghost use Rattle.records.specs.Holds.{Holds};
ghost use Rattle.scopes.specs.Scopes.{scoping_of, directory_slot, Paged, GrowingDirectory, BlankDirectory, PageGiven, AllEntered, PassedTo, EndsOf, level, fault_by, Levels, TupleAt};

use records::{kinds, limits, word_at};

// Why the scopes of a table are refused: the first use outside every delimitation (refusal 6), or else the first clash (refusal 7).
#[derive(Clone, Copy, PartialEq, Eq, Debug)]
pub enum ScopeFault {
    Open(usize),
    Clash(usize),
}

// How bad a use is: in order, a delimited value outside its delimitations, a variable or a label outside its delimitations. The worst of several is the greatest.
#[derive(Clone, Copy, PartialEq, Eq, PartialOrd, Ord, Debug)]
enum Level {
    Fine,
    Escaped,
    Unbound,
}

// Where the directory keeps the atom a.
fn slot_of(pages: &[u32], a: u16) -> usize
    requires { length pages.now ≡ 256 }
    ensures { result ≡ directory_slot pages.now a }
{
    pages[usize::from(a / 256)] as usize + usize::from(a % 256)
}

// Gives out a page from `top` on if a's page is not there; the new top, if there is room.
fn give_page(pages: &mut [u32], a: u16, top: usize, room: usize) -> Option<usize>
    requires { (length pages.old ≡ 256) × (top ≤ 65792) }
    ensures { (marks : List ℕ) → length marks ≡ room → GrowingDirectory pages.old marks top → PageGiven pages.old pages.new marks a result }
{
    let p = usize::from(a / 256);
    if pages[p] != 0 {
        return Some(top);
    }
    if room < top + 256 {
        return None;
    }
    pages[p] = top as u32;
    Some(top + 256)
}

// Enters every atom that the table delimits; false if there are more pages than room.
fn enter_all(s: &[u8], pages: &mut [u32], marks: &mut [u16]) -> bool
    requires { BlankDirectory pages.old marks.old }
    ensures { AllEntered s.now pages.new marks.new result }
{
    let mut top: usize = 256;
    for d in 0..s.len() / 16 {
        if s[16 * d] != kinds::DELIMITATION {
            continue;
        }
        let a = word_at(s, 16 * d + 2);
        let Some(next) = give_page(pages, a, top, marks.len()) else {
            return false;
        };
        marks[slot_of(pages, a)] = 1;
        top = next;
    }
    true
}

// The directory once the atoms are entered: where each page starts among the marks, 0 if it is not given out, and the marks.
#[derive(Drop)]
struct Directory<'a> {
    pages: &'a [u32],
    marks: &'a mut [u16],
    ghost paged: { Paged pages.now marks.now },
}

impl Directory<'_> {
    // How bad the use of a at place j is.
    fn use_fault(&self, a: u16, j: usize) -> Level
        requires { j < max_records }
        ensures { result ≡ fault_by (get_or self.now.marks.now (directory_slot self.now.pages.now a) 0) a j }
    {
        let v = usize::from(self.marks[slot_of(self.pages, a)]);
        if j + 1 < v {
            return Level::Fine;
        }
        if limits::FIRST_VARIABLE <= a {
            return Level::Unbound;
        }
        if v == 0 { Level::Fine } else { Level::Escaped }
    }

    // The worst use among the tuple's atoms of the record at place j.
    fn tuple_fault(&self, s: &[u8], j: usize) -> Level
        requires { (j < max_records) × (j < length s.now / 16) }
        ensures { (p q : ℕ → Bool) (ws : List ℕ) → Levels self.now.pages.now self.now.marks.now j p q → TupleAt s.now j ws → every atom ws ≡ true → result ≡ level (any p ws) (any q ws) }
    {
        let c = usize::from(s[16 * j + 1]);
        if 4 < c {
            return Level::Fine;
        }
        let mut worst = Level::Fine;
        for i in 0..c {
            worst = worst.max(self.use_fault(word_at(s, 16 * j + 6 + 2 * i), j));
        }
        worst
    }

    // The worst use of the record at place j.
    fn record_fault(&self, s: &[u8], j: usize) -> Level
        requires { (j < max_records) × (j < length s.now / 16) }
        ensures { (t : Term) → PassedTo s.now self.now.pages.now self.now.marks.now j t → result ≡ level (unbound j (spot_at t j)) (escaped t j (spot_at t j)) }
    {
        let k = s[16 * j];
        if (k == kinds::INVOKE) | (k == kinds::RECEIVE) {
            let p = self.use_fault(word_at(s, 16 * j + 2), j);
            let o = self.use_fault(word_at(s, 16 * j + 4), j);
            return p.max(o.max(self.tuple_fault(s, j)));
        }
        if k == kinds::KILL {
            return self.use_fault(word_at(s, 16 * j + 2), j);
        }
        Level::Fine
    }

    // Passes the delimitation at place j; whether one of its atom was passed before.
    fn pass_delimitation(&mut self, s: &[u8], ends: &[u16], j: usize) -> bool
        requires { EndsOf s.now ends.now × (j < length s.now / 16) × (get_or s.now (16 * j) 0 ≡ 8) }
        ensures { (t : Term) → PassedTo s.now self.old.pages.now self.old.marks.now j t → PassedTo s.now self.new.pages.now self.new.marks.now (j + 1) t × (result ≡ again t j (spot_at t j)) }
    {
        let p = slot_of(self.pages, word_at(s, 16 * j + 2));
        let v = self.marks[p];
        let e = ends[j] + 1;
        if v < e {
            self.marks[p] = e;
        }
        2 <= v
    }

    // Both refusals over the table.
    fn pass(&mut self, s: &[u8], ends: &[u16]) -> Result<(), ScopeFault>
        requires { EndsOf s.now ends.now }
        ensures { (t : Term) → PassedTo s.now self.old.pages.now self.old.marks.now 0 t → result ≡ scoping_of (first unbound t) (first (clash t) t) }
    {
        let mut clash = None;
        for j in 0..s.len() / 16 {
            if s[16 * j] == kinds::DELIMITATION {
                let again = self.pass_delimitation(s, ends, j);
                clash = clash.or(again.then_some(j));
                continue;
            }
            let f = self.record_fault(s, j);
            if f == Level::Unbound {
                return Err(ScopeFault::Open(j));
            }
            clash = clash.or((f == Level::Escaped).then_some(j));
        }
        match clash {
            Some(j) => Err(ScopeFault::Clash(j)),
            None => Ok(()),
        }
    }
}

// Refusals 6 and 7 of a table that holds a term, with the ends of its terms.
pub fn scope_faults(s: &[u8], ends: &[u16]) -> Result<(), ScopeFault>
    requires { EndsFrom s.now ends.now 0 }
    ensures { (t : Term) → Holds s.now t → result ≡ scoping_of (first unbound t) (first (clash t) t) }
{
    let mut pages = [0u32; 256];
    let mut few = [0u16; 4096];
    if enter_all(s, &mut pages, &mut few) {
        let mut directory = Directory {
            pages: &pages,
            marks: &mut few,
        };
        return directory.pass(s, ends);
    }
    let mut all = [0u32; 256];
    let mut many = [0u16; 65792];
    enter_all(s, &mut all, &mut many);
    let mut directory = Directory {
        pages: &all,
        marks: &mut many,
    };
    directory.pass(s, ends)
}
