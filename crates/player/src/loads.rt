// The load of a part of a table: its kills, invokes, receives and waits, counted.
ghost use Rattle.std.specs.Prelude.{◌≡◌, ◌*◌, ◌≤◌, length};
ghost use Rattle.cows.specs.Limits.{max_records};
ghost use Rattle.cows.specs.Kinds.{weight_of};
ghost use Rattle.player.specs.Loads.{load_between};

use records::kinds;

// What a record of this kind weighs. No branch on the kind, which is hard to predict.
fn weight(kind: u8) -> u32
    ensures { (result ≡ weight_of kind) × (result ≤ 1) }
{
    ((kinds::KILL <= kind) & (kind <= kinds::WAIT)) as u32
}

// The load of the records at the places i to j - 1.
pub fn load_between(s: &[u8], i: usize, j: usize) -> u32
    requires { (16 * j ≤ length s.now) × (j ≤ max_records) }
    ensures { (result ≡ load_between s.now i j) × (result ≤ max_records) }
{
    let mut load: u32 = 0;
    for p in i..j {
        load += weight(s[16 * p]);
    }
    load
}
