// The ends of the terms after a cut: the choice at place `from` has become the continuation of the prefix at place a.
ghost use Rattle.std.specs.Prelude.{◌≡◌, cond, ◌-◌, ◌≤◌, ◌<◌, ltb};
ghost use Rattle.player.specs.Cutting.{Around, LoweredAround, Lowers, Lowered, CutsEnds, EndsCut};

// An end, d lower if it lies behind the place `start`.
fn lower_behind(e: u16, start: u16, d: u16) -> u16
    requires { start < e → d ≤ e }
    ensures { result ≡ cond (ltb start e) (e - d) e }
{
    if start < e {
        return e - d;
    }
    e
}

// The ends at the places ahead of `from`: those behind it are `by` lower.
fn lower_around(ends: &mut [u16], from: usize, by: usize)
    requires { Around ends.old from by }
    ensures { LoweredAround ends.old from by from ends.new }
{
    let start = from as u16;
    let d = by as u16;
    for i in 0..from {
        ends[i] = lower_behind(ends[i], start, d);
    }
}

// The ends at the places from `low` up to `high` are those of the places that are `by` higher, lowered by as much.
fn lower_ends(ends: &mut [u16], low: usize, high: usize, by: usize)
    requires { Lowers ends.old low high by }
    ensures { Lowered ends.old low high by ends.new }
{
    let d = by as u16;
    for i in low..high {
        ends[i] = ends[i + by] - d;
    }
}

// The ends of the n records of a table, made those of its successor: ahead of the choice, in the continuation, and behind.
pub fn cut_ends(ends: &mut [u16], n: usize, a: usize, from: usize)
    requires { CutsEnds ends.old n a from }
    ensures { EndsCut ends.old n a from ends.new }
{
    let body = usize::from(ends[a]);
    let inner = a + 1 - from;
    let outer = inner + (usize::from(ends[from]) - body);
    let middle = body - inner;
    lower_around(ends, from, outer);
    lower_ends(ends, from, middle, inner);
    lower_ends(ends, middle, n + 2 - outer, outer);
}
