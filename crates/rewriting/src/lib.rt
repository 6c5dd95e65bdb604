// Rewriting terms: the recursions of halting. Each reads the term at a byte of one table and writes what becomes of it at a byte of another.
#![tactic(auto)]

pub mod halting;

ghost use Rattle.std.specs.Prelude.{◌≡◌, ◌*◌, ◌/◌, ◌<◌, length, get_or};

// The byte behind the term at byte `at`, by the ends of terms.
pub fn end_at(ends: &[u16], at: usize) -> usize
    requires { at / 16 < length ends.now }
    ensures { result ≡ 16 * get_or ends.now (at / 16) 0 }
{
    16 * usize::from(ends[at / 16])
}
