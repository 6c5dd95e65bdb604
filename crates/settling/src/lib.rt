// Settling: the successor of a joint step, written in one walk. Records above the scopes are gone through; a scope is halted along the way to its kill; a term
// that holds no scope is copied whole.
#![tactic(auto)]

ghost use Rattle.std.specs.Prelude.{◌≡◌, ◌/◌, eqb, position};
ghost use Rattle.std.specs.List.{list_any};
ghost use Rattle.records.specs.Rewrites.{Rewritable, Rewrites};
ghost use Rattle.rewriting.specs.Aligned.{Aligned};
ghost use Rattle.settling.specs.Searching.{between};
ghost use Rattle.settling.specs.Settling.{settle_at, Scopes};

use records::children;
use records::copying::{Places, copy_record, copy_term};
use rewriting::end_at;
use rewriting::halting::aside_at;

// Whether one of the places stands from place p on and before place end.
fn any_between(places: &[u16], p: usize, end: usize) -> bool
    ensures { result ≡ list_any (between p end) places.now }
{
    places
        .iter()
        .any(|q| (p <= usize::from(*q)) & (usize::from(*q) < end))
}

// Which of the places is p, the first one.
fn index_of(places: &[u16], p: usize) -> Option<usize>
    ensures { result ≡ position (eqb p) places.now }
{
    places.iter().position(|q| usize::from(*q) == p)
}

// Writes the term at byte `at` with all its scopes settled; the kill of each scope is at the same index of `kills`.
pub fn settle_at(
    s: &[u8],
    ends: &[u16],
    scopes: &[u16],
    kills: &[u16],
    at: usize,
    dst: &mut [u8],
    to: usize,
) -> Places
    requires rewritable { Rewritable (settle_at scopes.now kills.now (at / 16)) s.now at dst.old to }
    requires aligned { Aligned s.now ends.now at }
    requires scopes { Scopes s.now ends.now scopes.now kills.now }
    ensures { Rewrites (settle_at scopes.now kills.now (at / 16)) s.now at dst.old to dst.new result.0 result.1 }
{
    let end = end_at(ends, at);
    if !any_between(scopes, at / 16, end / 16) {
        return copy_term(s, at, end, dst, to);
    }
    copy_record(s, at, dst, to);
    if let Some(i) = index_of(scopes, at / 16) {
        return aside_at(s, ends, at + 16, 16 * usize::from(kills[i]), dst, to + 16);
    }
    let Places(next, then) = settle_at(s, ends, scopes, kills, at + 16, dst, to + 16);
    if children(s[at]) == 2 {
        return settle_at(s, ends, scopes, kills, next, dst, then);
    }
    Places(next, then)
}
