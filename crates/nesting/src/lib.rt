// Nesting: how the records of an Orc script lie in each other: the lowest place of a wrong shape and of a depth over 64 (31).
#![tactic(auto)]

ghost use Rattle.std.specs.Prelude.{◌≡◌, ◌/◌, ◌≤◌, length};
ghost use Rattle.records.specs.Answers.{found_of};
ghost use Rattle.orc.specs.Scripts.{nodes_of, misplaced};
ghost use Rattle.nesting.specs.Nesting.{NestsTo};

use scripts::kinds;

// The place behind the expression at place i, of a depth, or that of the first fault: the record itself, then its parts.
fn nest_on(s: &[u8], i: usize, depth: usize) -> Result<usize, usize>
    requires { (i ≤ length s.now / 8) × (depth ≤ 65) }
    ensures { NestsTo s.now depth i result }
{
    if (i == s.len() / 8) | (64 < depth) {
        return Err(i);
    }
    let kind = s[8 * i];
    if (kind < kinds::SEQUENCE) | (kinds::WHERE < kind) {
        return Ok(i + 1);
    }
    let m = nest_on(s, i + 1, depth + 1)?;
    nest_on(s, m, depth + 1)
}

// The lowest place of a wrong shape and a depth over 64. An expression that is to be the whole script and ends before its last record has the first record over.
pub fn find_misplaced(s: &[u8]) -> Option<usize>
    ensures { result ≡ found_of (misplaced (nodes_of s.now)) }
{
    match nest_on(s, 0, 1) {
        Ok(m) => (m < s.len() / 8).then_some(m),
        Err(p) => Some(p),
    }
}
