// Entries: the moves of a list in their six bytes, and those of the places that have a role.
#![tactic(auto)]

ghost use Rattle.std.specs.Prelude.{◌≡◌, ◌+◌, ◌<◌, ◌≤◌, length};
ghost use Rattle.cows.specs.Papers.{move_bytes};
ghost use Rattle.records.specs.Rewrites.{put};
ghost use Rattle.entries.specs.Entries.{places_of, EntryRoom, Entered};

use records::copying::put_word;
use roles::Role;

// Writes a move.
pub fn put_move(kind: u8, a: u16, b: u16, out: &mut [u8], at: usize)
    requires { at + 5 < length out.old }
    ensures { out.new ≡ put out.old at (move_bytes kind a b) }
{
    put_word(kind as u16, out, at);
    put_word(a, out, at + 2);
    put_word(b, out, at + 4);
}

// How many places have the role.
pub fn count(cast: &[Role], role: Role) -> usize
    ensures { (result ≡ length (places_of cast.now role (length cast.now))) × (result ≤ length cast.now) }
{
    cast.iter().filter(|r| **r == role).count()
}

// Writes the moves of one kind, those of the places that have the role, behind the m moves that stand there; how many stand there then.
pub fn put_kind(cast: &[Role], role: Role, kind: u8, out: &mut [u8], m: usize) -> usize
    requires { EntryRoom cast.now role (length cast.now) out.old m }
    ensures { Entered cast.now role kind out.old m (length cast.now) out.new result }
{
    let mut count = m;
    for i in 0..cast.len() {
        if cast[i] == role {
            put_move(kind, i as u16, 0, out, 6 * count);
            count += 1;
        }
    }
    count
}
