// Depths: whether the term at a place is too deep, and the first record that is (refusal 4), each by recursion over the records.
#![tactic(auto)]

ghost use Rattle.std.specs.Prelude.{◌≡◌, ◌*◌, ltb};
ghost use Rattle.cows.specs.Terms.{Term, depth};
ghost use Rattle.records.specs.Answers.{found_of};
ghost use Rattle.records.specs.Rewrites.{StandsIn};
ghost use Rattle.depths.specs.Depths.{Standing, deep_in};

use records::{children, limits};

// Whether the term at place i is deeper than `room`. A term is no deeper than it has records, so a short one is not gone into.
pub fn deeper(s: &[u8], ends: &[u16], i: usize, room: usize) -> bool
    requires { Standing s.now ends.now i }
    ensures { (t : Term) → StandsIn s.now (16 * i) t → result ≡ ltb room (depth t) }
{
    if usize::from(ends[i]) - i <= room {
        return false;
    }
    if room == 0 {
        return true;
    }
    if deeper(s, ends, i + 1, room - 1) {
        return true;
    }
    if children(s[16 * i]) == 1 {
        return false;
    }
    deeper(s, ends, usize::from(ends[i + 1]), room - 1)
}

// The first record that is too deep in the term at place i, whose own record has the depth d.
pub fn first_deep(s: &[u8], ends: &[u16], i: usize, d: usize) -> Option<usize>
    requires { Standing s.now ends.now i }
    ensures { (t : Term) → StandsIn s.now (16 * i) t → result ≡ found_of (deep_in d i t) }
{
    if limits::MAX_DEPTH < d {
        return Some(i);
    }
    let c = children(s[16 * i]);
    if c == 0 {
        return None;
    }
    let first = first_deep(s, ends, i + 1, d + 1);
    if c == 1 {
        return first;
    }
    // Not `or_else`: a closure that calls the function again would need the function's contract a second time.
    if first.is_some() {
        return first;
    }
    first_deep(s, ends, usize::from(ends[i + 1]), d + 1)
}
