// Shapes: one backward pass over the records of a table that finds the ends of all terms and the height of the term, with a stack, and lists delimitations and
// users of atoms on the way. A quick test that only ever accepts, without branches on the kind.
#![tactic(auto)]

ghost use Rattle.std.specs.Prelude.{◌≡◌, IfSome, ℕ, ◌*◌, ◌+◌, ◌%◌, ◌/◌, ◌<◌};
ghost use Rattle.std.specs.Int.Bits.{bit_and};
ghost use Rattle.records.specs.Ends.{pick_end};
ghost use Rattle.shapes.specs.Shaped.{pick_height, Masks, Roomy, Shaped};

use records::{kinds, limits};

// The height of the term of a table; how many delimitations and how many users of atoms are listed.
#[derive(Clone, Copy)]
pub struct Shape {
    pub height: usize,
    pub marks: usize,
    pub users: usize,
}

// The most terms on the stack, each above another, and the greatest height.
const MOST: u32 = limits::MAX_DEPTH as u32;

// All bits of a number, and the bits of a height.
const ALL: u32 = 4294967295;

const HIGH: u32 = 4294901760;

// Of a kind: two less the number of children; masks of the place behind the record, and of the numbers of its first child and its second.
#[derive(Clone, Copy)]
struct Kind {
    more: u32,
    behind: u32,
    first: u32,
    second: u32,
}

// Of a kind without children, with one, and with two.
const NONE: Kind = Kind {
    more: 2,
    behind: 65535,
    first: 0,
    second: 0,
};

const ONE: Kind = Kind {
    more: 1,
    behind: 0,
    first: ALL,
    second: 0,
};

const TWO: Kind = Kind {
    more: 0,
    behind: 0,
    first: HIGH,
    second: ALL,
};

// By kind.
static KINDS: [Kind; 10] = [NONE, NONE, NONE, ONE, ONE, TWO, TWO, ONE, ONE, ONE];

// A term as a number: its end, and 65,536 times its height. Here that of a record by the place x behind it and the numbers a and b of its children, with the masks
// of its kind: masks and one comparison take less time than branches or multiplications, and the next record waits for the number.
fn number_of(of: &Kind, x: u32, a: u32, b: u32) -> u32
    requires { (x < 65536) × (a < 268435456) × (bit_and b of.now.second < 268435456) }
    ensures { (c : ℕ) → Masks c of.now.behind of.now.first of.now.second → result ≡ pick_end c x (a % 65536) (b % 65536) + 65536 * pick_height c (a / 65536) (b / 65536) }
{
    let p = a & of.first;
    let q = (b & of.second) | (x & of.behind);
    if p < q {
        return q + 65536;
    }
    p + q % 65536 + 65536
}

// Finds the ends of all terms and the height of the term; lists delimitations as marks, and kills, invokes and receives as users. None if the table is not
// accepted. The stack has, below the term that was read last, the number of each term that waits for a parent; the lowest is at 2.
pub fn shape_of(
    s: &[u8],
    ends: &mut [u16],
    stack: &mut [u32],
    marks: &mut [u16],
    users: &mut [u16],
) -> Option<Shape>
    requires { Roomy s.now ends.old stack.old marks.old users.old }
    ensures { IfSome result (λ h. Shaped s.now ends.new marks.new users.new h.height h.marks h.users) }
{
    let n = s.len() / 16;
    let over = (n + 1) as u16;
    ends[n + 1] = over;
    ends[n] = over;
    let mut have: u32 = 0;
    let mut term: u32 = 0;
    let mut m = 0;
    let mut u = 0;
    for i in (0..n).rev() {
        let kind = s[16 * i];
        let of = &KINDS[usize::from(kind)];
        let next = have + of.more;
        if (next < 2) | (MOST + 1 < next) {
            return None;
        }
        let top = have as usize;
        let below = stack[top];
        stack[top + 1] = term;
        term = number_of(of, i as u32 + 1, term, below);
        have = next - 1;
        ends[i] = (term % 65536) as u16;
        marks[m] = i as u16;
        m += usize::from(kind == kinds::DELIMITATION);
        users[u] = i as u16;
        u += usize::from((kinds::KILL <= kind) & (kind <= kinds::RECEIVE));
    }
    if (have != 1) | (MOST < term / 65536) {
        return None;
    }
    Some(Shape {
        height: (term / 65536) as usize,
        marks: m,
        users: u,
    })
}
