// Matching: whether a receive fits an invoke, by the atoms of their records, and what differs if not. The meeting, the conflict test and the list of open moves ask it.
#![tactic(auto)]

pub mod taking;

ghost use Rattle.std.specs.Prelude.{◌≡◌, true, ◌+◌, ◌*◌, ◌≤◌, ◌<◌, length};
ghost use Rattle.cows.specs.Terms.{Action, variable};
ghost use Rattle.cows.specs.Basics.{one_if};
ghost use Rattle.cows.specs.Format.{word};
ghost use Rattle.cows.specs.Moves.{closed_action, fit, mismatch_number};
ghost use Rattle.matching.specs.Matching.{mismatch_of, fit_of, agree, first_apart, first_unlike, slots_at, ActionAt};

use records::{atom_at, closed, is_variable, word_at};

// What differs, the lowest number first; a slot of the tuples by its index.
#[derive(Clone, Copy, PartialEq, Eq)]
pub enum Difference {
    Unset,
    Endpoint,
    Count,
    Slot(u8),
}

// Whether the slot at byte k of a pattern and that at byte m of a message agree: a variable takes the value there, a value is the same.
fn agrees_at(s: &[u8], k: usize, m: usize) -> bool
    requires { (k + 1 < length s.now) × (m + 1 < length s.now) }
    ensures { result ≡ agree (word s.now k) (word s.now m) }
{
    let w = atom_at(s, k);
    is_variable(w) | (w == atom_at(s, m))
}

// How many variables stand at byte k: one or none.
fn variables_at(s: &[u8], k: usize) -> usize
    requires { k + 1 < length s.now }
    ensures { (result ≡ one_if (variable (word s.now k))) × (result ≤ 1) }
{
    usize::from(is_variable(atom_at(s, k)))
}

// The index of the first of four slots that does not agree: w, x and y say of the first three whether they do.
fn first_apart(w: bool, x: bool, y: bool) -> u8
    ensures { result ≡ first_apart w x y }
{
    match (w, x, y) {
        (false, _, _) => 0,
        (true, false, _) => 1,
        (true, true, false) => 2,
        (true, true, true) => 3,
    }
}

// The tuples of the records at bytes k and m: all four slots by one test, and where it fails the first that differs. One slot after the other, a search through an
// array of the four answers, takes a list of open moves twice the time.
fn slots_fit(s: &[u8], k: usize, m: usize) -> Result<usize, Difference>
    requires { (k + 15 < length s.now) × (m + 15 < length s.now) }
    ensures { result ≡ slots_at s.now k m }
{
    let w = agrees_at(s, k + 6, m + 6);
    let x = agrees_at(s, k + 8, m + 8);
    let y = agrees_at(s, k + 10, m + 10);
    let z = agrees_at(s, k + 12, m + 12);
    if !(w & (x & (y & z))) {
        return Err(Difference::Slot(first_apart(w, x, y)));
    }
    let front = variables_at(s, k + 6) + variables_at(s, k + 8);
    Ok(front + variables_at(s, k + 10) + variables_at(s, k + 12))
}

// What differs ahead of the slots: of no variable, the same endpoint and the same count, the first that is not so.
fn first_unlike(closed: bool, endpoint: bool) -> Difference
    ensures { result ≡ first_unlike closed endpoint }
{
    match (closed, endpoint) {
        (false, _) => Difference::Unset,
        (true, false) => Difference::Endpoint,
        (true, true) => Difference::Count,
    }
}

// Whether the receive at place a fits the invoke at place b; `closed` says whether the invoke holds no variable.
fn compare(s: &[u8], a: usize, b: usize, closed: bool) -> Result<usize, Difference>
    requires { (16 * a + 15 < length s.now) × (16 * b + 15 < length s.now) }
    ensures { (q m : Action) → ActionAt s.now a q → ActionAt s.now b m → closed ≡ closed_action m → result ≡ fit_of (fit q m) }
{
    let k = 16 * a;
    let m = 16 * b;
    let endpoint = (word_at(s, k + 2) == word_at(s, m + 2))
        & (word_at(s, k + 4) == word_at(s, m + 4));
    let count = s[k + 1] == s[m + 1];
    if !(closed & (endpoint & count)) {
        return Err(first_unlike(closed, endpoint));
    }
    slots_fit(s, k, m)
}

// Whether the receive at place a fits the invoke at place b, which holds no variable.
pub fn fits_closed(s: &[u8], a: usize, b: usize) -> Result<usize, Difference>
    requires { (16 * a + 15 < length s.now) × (16 * b + 15 < length s.now) }
    ensures { (q m : Action) → ActionAt s.now a q → ActionAt s.now b m → closed_action m ≡ true → result ≡ fit_of (fit q m) }
{
    compare(s, a, b, true)
}

// Whether the receive at place a fits the invoke at place b.
pub fn fits(s: &[u8], a: usize, b: usize) -> Result<usize, Difference>
    requires { (16 * a + 15 < length s.now) × (16 * b + 15 < length s.now) }
    ensures { (q m : Action) → ActionAt s.now a q → ActionAt s.now b m → result ≡ fit_of (fit q m) }
{
    compare(s, a, b, closed(s, 16 * b))
}

// The number by which a refusal says what differs.
impl From<Difference> for usize {
    ghost from_gives = { λ d n. n ≡ mismatch_number (mismatch_of d) };

    #[tactic(auto, unfolding(cows::specs::Moves::mismatch_number))]
    fn from(difference: Difference) -> usize {
        match difference {
            Difference::Unset => 0,
            Difference::Endpoint => 1,
            Difference::Count => 2,
            Difference::Slot(i) => 3 + usize::from(i),
        }
    }
}
