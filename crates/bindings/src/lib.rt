// Bindings: the variables of an Orc script (32): the first record that uses one outside its scope, or binds one a second time.
#![tactic(auto)]

ghost use Rattle.std.specs.Prelude.{◌≡◌, true, [], ◌+◌, ◌*◌, ◌-◌, ◌<◌, ◌≤◌, length};
ghost use Rattle.cows.specs.Limits.{first_variable};
ghost use Rattle.cows.specs.Terms.{variable};
ghost use Rattle.cows.specs.Within.{nowhere};
ghost use Rattle.records.specs.Answers.{found_of};
ghost use Rattle.orc.specs.Expressions.{Orc};
ghost use Rattle.orc.specs.Scripts.{misbound};
ghost use Rattle.scripts.specs.Standing.{ScriptOf};
ghost use Rattle.bindings.specs.Marks.{uses_outside, Scannable, Scanned};

use records::word_at;
use scripts::kinds;

// A mark for each variable.
const VARIABLES: usize = 16384;

// The mark of a variable: no record so far binds it, or one does, or one does and its scope is around.
#[derive(Clone, Copy, PartialEq, Eq)]
enum Mark {
    Unseen,
    Seen,
    Open,
}

// Which of the variables it is, from 0 on.
fn slot(x: u16) -> usize
    requires { variable x ≡ true }
    ensures { (result ≡ x - first_variable) × (result < 16384) }
{
    usize::from(x) - 32768
}

// Whether the record at place i, which has no part, uses a variable outside its scope.
fn uses_outside(s: &[u8], i: usize, marks: &[Mark; VARIABLES]) -> bool
    requires { 8 * i + 8 ≤ length s.now }
    ensures { result ≡ uses_outside s.now i marks.now }
{
    let x = word_at(s, 8 * i + 2);
    if (s[8 * i] != kinds::CALL) | !scripts::in_variables(x) {
        return false;
    }
    marks[slot(x)] != Mark::Open
}

// Reads the expression at place i, with the marks as the records before it left them: the place behind it, or that of its first fault. A composition's variable is open
// while the part that is its scope is read.
fn bind_on(s: &[u8], i: usize, marks: &mut [Mark; VARIABLES]) -> Result<usize, usize>
    requires { Scannable s.now i marks.old }
    ensures { Scanned s.now i marks.old marks.new result }
{
    let kind = s[8 * i];
    if kind < kinds::SEQUENCE {
        if uses_outside(s, i, marks) {
            return Err(i);
        }
        return Ok(i + 1);
    }
    if kind == kinds::PARALLEL {
        let m = bind_on(s, i + 1, marks)?;
        return bind_on(s, m, marks);
    }
    let x = slot(word_at(s, 8 * i + 2));
    if marks[x] != Mark::Unseen {
        return Err(i);
    }
    let (in_left, in_right) = if kind == kinds::WHERE {
        (Mark::Open, Mark::Seen)
    } else {
        (Mark::Seen, Mark::Open)
    };
    marks[x] = in_left;
    let m = bind_on(s, i + 1, marks)?;
    marks[x] = in_right;
    let right = bind_on(s, m, marks);
    marks[x] = Mark::Seen;
    right
}

// The first record of a script that is at fault with a variable.
pub fn find_misbound(s: &[u8]) -> Option<usize>
    requires { (e : Orc) × ScriptOf s.now e }
    ensures { (e : Orc) → ScriptOf s.now e → result ≡ found_of (misbound nowhere [] 0 e) }
{
    let mut marks = [Mark::Unseen; VARIABLES];
    bind_on(s, 0, &mut marks).err()
}
