// Overlaps: the first of the listed scopes that lies inside another one, holds it, or is the same.
#![tactic(auto)]

ghost use Rattle.std.specs.Prelude.{◌≡◌, ◌<◌, [], length};
ghost use Rattle.std.specs.List.{list_any};
ghost use Rattle.records.specs.Answers.{found_of};
ghost use Rattle.overlaps.specs.Overlaps.{overlap, first_overlap, AllBefore};

// Whether one of the terms at two places is the other, or lies inside it.
fn overlap(ends: &[u16], p: usize, q: usize) -> bool
    requires { (p < length ends.now) × (q < length ends.now) }
    ensures { result ≡ overlap ends.now p q }
{
    ((p <= q) & (q < usize::from(ends[p]))) | ((q <= p) & (p < usize::from(ends[q])))
}

// Whether the term at place p overlaps one of the others.
fn any_overlap(ends: &[u16], p: usize, others: &[u16]) -> bool
    requires { (p < length ends.now) × AllBefore (length ends.now) others.now }
    ensures { result ≡ list_any (overlap ends.now p) others.now }
{
    others.iter().any(|q| overlap(ends, p, usize::from(*q)))
}

// Which of the places is the first whose term overlaps that of another.
pub fn first_overlap(ends: &[u16], places: &[u16]) -> Option<usize>
    requires { AllBefore (length ends.now) places.now }
    ensures { result ≡ found_of (first_overlap ends.now [] places.now) }
{
    for i in 0..places.len() {
        let p = usize::from(places[i]);
        let next = i + 1;
        if any_overlap(ends, p, &places[..i]) | any_overlap(ends, p, &places[next..]) {
            return Some(i);
        }
    }
    None
}
