// A prefix and the whole choice around it make way for the continuation: how many records are left, and which bytes.
ghost use Rattle.std.specs.Prelude.{◌≡◌, ◌+◌, ◌-◌, ◌/◌, length, get_or};
ghost use Rattle.records.specs.Rewrites.{put};
ghost use Rattle.plans.specs.Cutting.{Span, Room, cut_of};

use records::copying::copy;

// How many of n records are left when the choice at place `from` becomes the continuation of the prefix at place a.
pub fn left(ends: &[u16], n: usize, a: usize, from: usize) -> usize
    requires { Span ends.now n a from }
    ensures { result ≡ n - (get_or ends.now from 0 - from) + (get_or ends.now a 0 - a - 1) }
{
    let gone = usize::from(ends[from]) - from;
    let kept = usize::from(ends[a]) - a - 1;
    n - gone + kept
}

// The bytes of s ahead of the choice, those of the continuation, and those behind the choice.
pub fn cut(s: &[u8], ends: &[u16], a: usize, from: usize, out: &mut [u8])
    requires span { Span ends.now (length s.now / 16) a from }
    requires room { Room s.now ends.now a from out.old }
    ensures { out.new ≡ put out.old 0 (cut_of s.now ends.now a from) }
{
    let body = 16 * (usize::from(ends[a]) - a - 1);
    let rest = 16 * usize::from(ends[from]);
    copy(s, 0, 16 * from, out, 0);
    copy(s, 16 * (a + 1), body, out, 16 * from);
    copy(s, rest, s.len() - rest, out, 16 * from + body);
}
