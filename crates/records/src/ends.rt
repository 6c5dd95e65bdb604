// Where terms end: one backward pass over the records of a table, well shaped or not.
ghost use Rattle.std.specs.Prelude.{◌≡◌, ◌+◌, ◌*◌, ◌/◌, ◌<◌, ◌≤◌, length};
ghost use Rattle.cows.specs.Limits.{max_records};
ghost use Rattle.records.specs.Ends.{pick_end, EndsFrom};

use crate::children;

// Where a term ends: at x without children, at a with one, at b with two, by flags of which one is 1. No branch, and no lookup in memory: either would hold up
// a pass that needs the end for the next record.
fn pick_end(none: u32, one: u32, two: u32, x: u32, a: u32, b: u32) -> u32
    requires { (none + one + two ≡ 1) × (x ≤ 65535) × (a ≤ 65535) × (b ≤ 65535) }
    ensures { result ≡ pick_end (one + 2 * two) x a b }
{
    none * x + one * a + two * b
}

// The same by the number c of children.
fn end_by(c: usize, x: u16, a: u16, b: u16) -> u16
    requires { c ≤ 2 }
    ensures { result ≡ pick_end c x a b }
{
    let none = u32::from(c == 0);
    let one = u32::from(c == 1);
    let two = u32::from(c == 2);
    pick_end(none, one, two, u32::from(x), u32::from(a), u32::from(b)) as u16
}

// The place after the term at each place, from the last to the first; one more than the number of records where the records run out.
pub fn ends(s: &[u8], out: &mut [u16])
    requires { (length s.now / 16 ≤ max_records) × (length s.now / 16 + 1 < length out.old) }
    ensures { EndsFrom s.now out.new 0 }
{
    let n = s.len() / 16;
    let over = (n + 1) as u16;
    out[n + 1] = over;
    out[n] = over;
    let mut top = over;
    for i in (0..n).rev() {
        let b = out[usize::from(top)];
        let next = (i + 1) as u16;
        top = end_by(children(s[16 * i]), next, top, b);
        out[i] = top;
    }
}
