// Deepest: no unfolding and no floating that would make the table too deep keeps its role (20 by depth). The depth of each term is found from the last place
// to the first; the way to each place, and how deep what stands beside it reaches, from the first to the last.
#![tactic(auto)]

ghost use Rattle.std.specs.Prelude.{◌≡◌, cond, ◌&&◌, ◌||◌, ℕ, ◌+◌, ◌*◌, ◌/◌, ◌<◌, ◌≤◌, length};
ghost use Rattle.cows.specs.Terms.{Term, size, depth};
ghost use Rattle.records.specs.Rewrites.{StandsIn};
ghost use Rattle.ways.specs.TermOf.{TermOf};
ghost use Rattle.depths.specs.Depths.{Standing};
ghost use Rattle.roles.specs.declared.Role.TheVariants.{Idle, Unfold, Extrude};
ghost use Rattle.roles.specs.Roles.{is_role, role_at, role_of, Cast};
ghost use Rattle.deepest.specs.Deepest.{Heights, Told, Telling};

use records::{children, limits};
use roles::Role;
use ways::KnownTable;

// The depth of the term at place i, by those of its children.
fn height(s: &[u8], ends: &[u16], heights: &[u16], i: usize) -> u16
    requires { Standing s.now ends.now i × Heights s.now heights.now (i + 1) × (length s.now / 16 ≤ length heights.now) }
    ensures { (t : Term) → StandsIn s.now (16 * i) t → result ≡ depth t }
{
    let c = children(s[16 * i]);
    if c == 0 {
        return 1;
    }
    let first = heights[i + 1];
    if c == 1 {
        return 1 + first;
    }
    1 + first.max(heights[usize::from(ends[i + 1])])
}

// The depth of the term at each place, from the last to the first.
fn find_heights(table: KnownTable, heights: &mut [u16])
    requires { length table.bytes.now / 16 ≤ length heights.old }
    ensures { Heights table.entry.bytes.now heights.new 0 }
{
    for i in (0..table.bytes.len() / 16).rev() {
        heights[i] = height(table.bytes, table.ends, heights, i);
    }
}

// From the record at place i to its children: how many records are above them, and how deep the one reaches that stands beside the other.
fn tell(s: &[u8], ends: &[u16], heights: &[u16], levels: &mut [u16], sides: &mut [u16], i: usize)
    requires { Telling s.now ends.now heights.now levels.old sides.old i }
    ensures { Told s.now ends.now levels.new sides.new (i + 1) }
{
    let c = children(s[16 * i]);
    if c == 0 {
        return;
    }
    let l = i + 1;
    let level = levels[i] + 1;
    levels[l] = level;
    if c == 1 {
        sides[l] = 0;
        return;
    }
    let r = usize::from(ends[l]);
    levels[r] = level;
    sides[l] = level + heights[r];
    sides[r] = level + heights[l];
}

// What is left of a role at a place that reaches the greatest depth, or beside one.
fn open_role(role: Role, full: bool, crowded: bool) -> Role
    ensures { result ≡ cond ((is_role role Unfold && full) || (is_role role Extrude && crowded)) Idle role }
{
    match role {
        Role::Unfold if full => Role::Idle,
        Role::Extrude if crowded => Role::Idle,
        _ => role,
    }
}

// The role at each place, from the first to the last.
fn dismiss_all(table: KnownTable, heights: &[u16], cast: &mut [Role])
    requires { Heights table.bytes.now heights.now 0 × (length table.bytes.now / 16 ≤ length heights.now) × (length table.bytes.now / 16 ≤ length cast.old) }
    ensures { (t : Term) → TermOf table.entry t → ((n : ℕ) → n < size t → role_at cast.old n ≡ role_of t n) → Cast t cast.new }
{
    let mut levels = [0u16; limits::MAX_RECORDS];
    let mut sides = [0u16; limits::MAX_RECORDS];
    let n = table.bytes.len() / 16;
    for i in 0..n {
        let full = usize::from(levels[i]) + usize::from(heights[i]) == limits::MAX_DEPTH;
        cast[i] = open_role(cast[i], full, usize::from(sides[i]) == limits::MAX_DEPTH);
        tell(table.bytes, table.ends, heights, &mut levels, &mut sides, i);
    }
}

// No unfolding and no floating that would be too deep keeps its role. A table that does not reach the greatest depth has none.
pub fn dismiss_deep(table: KnownTable, cast: &mut [Role])
    requires { length table.bytes.now / 16 ≤ length cast.old }
    ensures { (t : Term) → TermOf table.entry t → ((n : ℕ) → n < size t → role_at cast.old n ≡ role_of t n) → Cast t cast.new }
{
    if table.bytes.len() / 16 < limits::MAX_DEPTH {
        return;
    }
    let mut heights = [0u16; limits::MAX_RECORDS];
    find_heights(table, &mut heights);
    if usize::from(heights[0]) < limits::MAX_DEPTH {
        return;
    }
    dismiss_all(table, &heights, cast);
}
