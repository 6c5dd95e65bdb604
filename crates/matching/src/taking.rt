// What a slot of a receive's pattern takes from the slot of the invoke's tuple at the same index.
ghost use Rattle.std.specs.Prelude.{◌≡◌, ◌+◌, ◌<◌, length};
ghost use Rattle.cows.specs.Format.{word};
ghost use Rattle.matching.specs.Taking.{takes_of};

use records::{Atom, Binding, atom_at};

// What the pattern's slot at byte k takes from the tuple's slot at byte m: nothing but where a variable meets a value.
#[tactic(auto, unfolding(crate::specs::Taking::takes_of))]
pub fn takes_at(s: &[u8], k: usize, m: usize) -> Option<Binding>
    requires { (k + 1 < length s.now) × (m + 1 < length s.now) }
    ensures { result ≡ takes_of (word s.now k) (word s.now m) }
{
    match (atom_at(s, k), atom_at(s, m)) {
        (Atom::Variable(variable), Atom::Value(value)) => Some(Binding { variable, value }),
        _ => None,
    }
}
