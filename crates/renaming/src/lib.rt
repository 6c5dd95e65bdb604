// What moves do to atoms: the atoms delimited in a body become new ones in its copy (unfolding), and variables become values (communication).
#![tactic(auto)]

pub mod binding;
pub mod fields;
pub mod names;
#[cfg(test)]
mod tests;

ghost use Rattle.std.specs.Prelude.{◌≡◌, true, ◌+◌, ◌-◌, ◌*◌, ◌/◌, ◌<◌, ◌≤◌, length};
ghost use Rattle.cows.specs.Terms.{Term};
ghost use Rattle.cows.specs.Places.{sub};
ghost use Rattle.cows.specs.Format.{encode};
ghost use Rattle.cows.specs.Moves.{copy};
ghost use Rattle.records.specs.Holds.{Holds};
ghost use Rattle.records.specs.Rewrites.{put};
ghost use Rattle.renaming.specs.Names.{Body, Blank, Copied};

use records::copying::copy;

// Writes the copy by the names given, all 0. False if an atom of the table has no place among them: nothing is written then.
fn copy_by(s: &[u8], from: usize, to: usize, names: &mut [u16], dst: &mut [u8], at: usize) -> bool
    requires { Body s.now from to × (at + 16 * (to - from) ≤ length dst.old) × Blank (length s.now / 16) names.old }
    ensures { (65536 ≤ length names.old → result ≡ true) × Copied s.now from dst.old at dst.new result }
{
    if !names::mark(s, names) {
        return false;
    }
    names::choose(s, from, to, names);
    fields::copy_named(s, from, to, names, dst, at);
    true
}

// The same by N names of its own, which stay out of the frames of the functions that call it.
#[inline(never)]
fn copy_with<const N: usize>(s: &[u8], from: usize, to: usize, dst: &mut [u8], at: usize) -> bool
    requires body { Body s.now from to × (at + 16 * (to - from) ≤ length dst.old) }
    requires enough { (28 * (length s.now / 16) + 8 < N) × (N ≤ 65536) }
    ensures { (65536 ≤ N → result ≡ true) × Copied s.now from dst.old at dst.new result }
{
    let mut names = [0u16; N];
    copy_by(s, from, to, &mut names, dst, at)
}

// Writes the copy by the fewest names that there are enough of, and by more where an atom has no place among them: by 2,048, 8,192 or 32,768, and at last by one for every atom.
fn copy_renamed(s: &[u8], from: usize, to: usize, dst: &mut [u8], at: usize)
    requires { Body s.now from to × (at + 16 * (to - from) ≤ length dst.old) }
    ensures { (t : Term) → Holds s.now t → dst.new ≡ put dst.old at (encode (copy t (sub t from))) }
{
    let records = s.len() / 16;
    if records <= 72 && copy_with::<2048>(s, from, to, dst, at) {
        return;
    }
    if records <= 292 && copy_with::<8192>(s, from, to, dst, at) {
        return;
    }
    if 292 < records && records <= 1169 && copy_with::<32768>(s, from, to, dst, at) {
        return;
    }
    copy_with::<65536>(s, from, to, dst, at);
}

// Writes a copy of the body at places `from` to `to` (not included) of the table, from byte `at` on: the atoms that it delimits are new ones. One that delimits none is its own copy.
pub fn write_copy(s: &[u8], from: usize, to: usize, dst: &mut [u8], at: usize)
    requires { Body s.now from to × (at + 16 * (to - from) ≤ length dst.old) }
    ensures { (t : Term) → Holds s.now t → dst.new ≡ put dst.old at (encode (copy t (sub t from))) }
{
    if !names::delimits(s, from, to) {
        copy(s, 16 * from, 16 * (to - from), dst, at);
        return;
    }
    copy_renamed(s, from, to, dst, at);
}
