// Records: atoms and their three sets, the numbers in a record's bytes, and how many children a kind has.
#![tactic(auto)]

pub mod copying;
pub mod ends;
pub mod kinds;
pub mod limits;

ghost use Rattle.std.specs.Prelude.{◌≡◌, ◌==◌, ◌+◌, ◌-◌, ◌<◌, ◌≤◌, eqb, length};
ghost use Rattle.std.specs.Cmp.Rules.{comparing};
ghost use Rattle.std.specs.Ordering.{on};
ghost use Rattle.cows.specs.Limits.{first_label};
ghost use Rattle.cows.specs.Kinds.{children_of};
ghost use Rattle.cows.specs.Format.{word};
ghost use Rattle.records.specs.Atoms.{class_of, number_of, is_variable, closed_at, takes_variable, image_of};

// The three disjoint sets of atoms, each with a type of its own. Atoms are made only by the classifying read.
#[derive(Clone, Copy, PartialEq, Eq)]
pub struct Value(u16);

#[derive(Clone, Copy, PartialEq, Eq)]
pub struct Variable(u16);

#[derive(Clone, Copy, PartialEq, Eq)]
pub struct Label(u16);

#[derive(Clone, Copy)]
pub enum Atom {
    None,
    Value(Value),
    Variable(Variable),
    Label(Label),
}

// The 16-bit number at byte k.
pub fn word_at(s: &[u8], k: usize) -> u16
    requires { k + 1 < length s.now }
    ensures { result ≡ word s.now k }
{
    u16::from_le_bytes([s[k], s[k + 1]])
}

// The class of a number: the one place where atoms are made.
impl From<u16> for Atom {
    ghost from_gives = { λ n a. a ≡ class_of n };

    #[tactic(auto, unfolding(crate::specs::Atoms::class_of))]
    fn from(n: u16) -> Atom {
        if n == 0 {
            return Atom::None;
        }
        if n < limits::FIRST_VARIABLE {
            return Atom::Value(Value(n));
        }
        if n < limits::FIRST_LABEL {
            return Atom::Variable(Variable(n));
        }
        Atom::Label(Label(n))
    }
}

// The classifying read of two bytes.
pub fn atom_at(s: &[u8], k: usize) -> Atom
    requires { k + 1 < length s.now }
    ensures { result ≡ class_of (word s.now k) }
{
    Atom::from(word_at(s, k))
}

// The number of an atom, for where it is written out.
impl From<Atom> for u16 {
    ghost from_gives = { λ a n. n ≡ number_of a };

    fn from(a: Atom) -> u16 {
        match a {
            Atom::None => 0,
            Atom::Value(v) => v.0,
            Atom::Variable(x) => x.0,
            Atom::Label(k) => k.0,
        }
    }
}

// Atoms are equal by their numbers.
impl PartialEq for Atom {
    ghost eq = { on number_of ◌==◌ };

    ghost laws = { Prim.search comparing };

    fn eq(&self, other: &Atom) -> bool {
        u16::from(*self) == u16::from(*other)
    }
}

impl Eq for Atom {
    ghost laws = { Prim.search comparing };
}

pub fn is_variable(a: Atom) -> bool
    ensures { result ≡ is_variable a }
{
    matches!(a, Atom::Variable(_))
}

// Whether the record at byte k holds no variable.
pub fn closed(s: &[u8], k: usize) -> bool
    requires { k + 15 < length s.now }
    ensures { result ≡ closed_at s.now k }
{
    let back = is_variable(atom_at(s, k + 10)) | is_variable(atom_at(s, k + 12));
    let tuple = is_variable(atom_at(s, k + 6)) | (is_variable(atom_at(s, k + 8)) | back);
    !(is_variable(atom_at(s, k + 2)) | (is_variable(atom_at(s, k + 4)) | tuple))
}

// Which of the labels it is, from 0 on.
pub fn label_index(k: Label) -> usize
    requires { first_label ≤ k.0 }
    ensures { (result ≡ k.0 - first_label) × (result < 16384) }
{
    usize::from(k.0) - 49152
}

// What a slot of a communication binds: a variable, and the value that it takes.
#[derive(Clone, Copy)]
pub struct Binding {
    pub variable: Variable,
    pub value: Value,
}

// Whether the variable x takes a value.
pub fn takes_variable(t: Option<Binding>, x: Variable) -> bool
    ensures { result ≡ takes_variable t x }
{
    t.is_some_and(|b| x == b.variable)
}

// What stands for the variable x: the value that it takes, or else the other atom.
pub fn image(t: Option<Binding>, x: Variable, other: Atom) -> Atom
    ensures { result ≡ image_of t x other }
{
    match t {
        Some(b) if x == b.variable => Atom::Value(b.value),
        _ => other,
    }
}

// How many children a kind has: one case for each, in the order of document 01's table (Records). Beside it stands its form in source document 001's syntax
// (Table 1), whose s and g are the children. A kind from 10 on is unknown, and counts as in the definition (cows, specs/Kinds).
pub fn children(kind: u8) -> usize
    ensures { (result ≡ children_of kind) × (result ≤ 2) }
{
    match kind {
        kinds::NIL => 0, // 0
        kinds::KILL => 0, // kill(k)
        kinds::INVOKE => 0, // u·u'!e
        kinds::RECEIVE => 1, // p·o?w.s
        kinds::WAIT => 1, // ⊖e.s
        kinds::CHOICE => 2, // g + g
        kinds::PARALLEL => 2, // s | s
        kinds::PROTECTION => 1, // ⟦s⟧
        kinds::DELIMITATION => 1, // [d]s
        kinds::REPLICATION => 1, // *s
        _ => 1,
    }
}
