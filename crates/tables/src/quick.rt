// A quick test of tables that only ever accepts: refusals 2 to 7 do not apply. Its stack, lists and index are as large as the table asks, since their numbers are
// cleared first.
ghost use Rattle.std.specs.Prelude.{◌≡◌, IfSome, true, ◌+◌, ◌/◌, ◌<◌, ◌≤◌, min, length, take};
ghost use Rattle.cows.specs.Limits.{max_depth};
ghost use Rattle.index.specs.Index.{BlankIndex};
ghost use Rattle.tables.specs.Verdict.{WholeRecords};
ghost use Rattle.tables.specs.Quick.{Lent, Sound, Passes};

use records::limits;
use shapes::{Shape, shape_of};

// The records by their ranges, then shape, depth and lists; none if one of these is not right.
fn sound(
    s: &[u8],
    ends: &mut [u16],
    stack: &mut [u32],
    marks: &mut [u16],
    users: &mut [u16],
) -> Option<Shape>
    requires { WholeRecords s.now × Lent s.now ends.old stack.old marks.old users.old }
    ensures { IfSome result (λ h. (h.marks ≤ length marks.new) × (h.users ≤ length users.new) × Sound s.now ends.new (take h.marks marks.new) (take h.users users.new)) }
{
    if !ranges::fields_right(s) {
        return None;
    }
    shape_of(s, ends, stack, marks, users)
}

// Scopes and patterns by the index that is lent, and the guards of choices by the table reader. Not inlined: it is one code for every index (`slot` of crate index).
#[inline(never)]
fn scoped(
    s: &[u8],
    ends: &[u16],
    marks: &[u16],
    users: &[u16],
    slots: &mut [u64],
    shift: usize,
    mask: usize,
) -> bool
    requires { WholeRecords s.now × Sound s.now ends.now marks.now users.now × BlankIndex slots.old shift mask }
    ensures { result ≡ true → Passes s.now ends.now }
{
    if !index::indexed_right(s, ends, marks, users, slots, shift, mask) {
        return false;
    }
    readers::read_on(s, ends, 0).is_ok()
}

// The same by an index of 8,192 entries.
fn scoped_wide(s: &[u8], ends: &[u16], marks: &[u16], users: &[u16], shift: usize) -> bool
    requires { WholeRecords s.now × Sound s.now ends.now marks.now users.now × (shift < 64) }
    ensures { result ≡ true → Passes s.now ends.now }
{
    let mut slots = [0u64; 8192];
    scoped(s, ends, marks, users, &mut slots, shift, 8191)
}

// Tables of few records, by a stack, lists and an index of these sizes. Not inlined, so that its arrays stand in no other's frame.
#[inline(never)]
fn few_right<const STACK: usize, const LIST: usize, const SLOTS: usize>(
    s: &[u8],
    ends: &mut [u16],
    shift: usize,
) -> bool
    requires whole { WholeRecords s.now × (length s.now / 16 + 1 < length ends.old) }
    requires room { (min (length s.now / 16) max_depth + 1 < STACK) × (STACK ≤ 65536) × (length s.now / 16 < LIST) × (LIST ≤ 65536) }
    requires slots { (0 < SLOTS) × (SLOTS ≤ 65536) × (shift < 64) }
    ensures { result ≡ true → Passes s.now ends.new }
{
    let mut stack = [0u32; STACK];
    let mut marks = [0u16; LIST];
    let mut users = [0u16; LIST];
    let Some(shape) = sound(s, ends, &mut stack, &mut marks, &mut users) else {
        return false;
    };
    let mut slots = [0u64; SLOTS];
    scoped(
        s,
        ends,
        &marks[..shape.marks],
        &users[..shape.users],
        &mut slots,
        shift,
        SLOTS - 1,
    )
}

// Tables of any number of records: where the index gives up, a wide one is taken, with the atoms spread in one way and then in another. Not inlined either.
#[inline(never)]
fn most_right(s: &[u8], ends: &mut [u16]) -> bool
    requires { WholeRecords s.now × (length s.now / 16 + 1 < length ends.old) }
    ensures { result ≡ true → Passes s.now ends.new }
{
    let mut stack = [0u32; 258];
    let mut marks = [0u16; limits::ENDS];
    let mut users = [0u16; limits::ENDS];
    let Some(shape) = sound(s, ends, &mut stack, &mut marks, &mut users) else {
        return false;
    };
    let delimitations = &marks[..shape.marks];
    let uses = &users[..shape.users];
    let mut slots = [0u64; 2048];
    scoped(s, ends, delimitations, uses, &mut slots, 9, 2047)
        || scoped_wide(s, ends, delimitations, uses, 11)
        || scoped_wide(s, ends, delimitations, uses, 2)
}

// Tables of up to 32 records, of up to 256, and of any number: what the test of a small one does not accept is left to the next larger.
pub fn right(s: &[u8], ends: &mut [u16]) -> bool
    requires { WholeRecords s.now × (length s.now / 16 + 1 < length ends.old) }
    ensures { result ≡ true → Passes s.now ends.new }
{
    let n = s.len() / 16;
    ((n <= 32) && few_right::<34, 33, 64>(s, ends, 4))
        || ((n <= 256) && few_right::<258, 257, 512>(s, ends, 7))
        || most_right(s, ends)
}
