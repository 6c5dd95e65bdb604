// Halting: what a kill leaves of the terms around it. The two places are handed back one by one (docs/DECISIONS.md, Rewriting).
ghost use Rattle.cows.specs.Moves.{halt};
ghost use Rattle.records.specs.Rewrites.{Rewritable, Rewrites};
ghost use Rattle.rewriting.specs.Aligned.{Aligned};
ghost use Rattle.rewriting.specs.Halting.{halt_aside, place_in, PlaceOf};

use crate::end_at;
use records::copying::{Places, copy_record, copy_term, nil_at};
use records::{children, kinds};

// Writes the term at byte `at` halted: a protection is kept whole; parallels, delimitations and replications are gone through; all else becomes nil.
pub fn halt_at(s: &[u8], ends: &[u16], at: usize, dst: &mut [u8], to: usize) -> Places
    requires rewritable { Rewritable halt s.now at dst.old to }
    requires aligned { Aligned s.now ends.now at }
    ensures { Rewrites halt s.now at dst.old to dst.new result.0 result.1 }
{
    let kind = s[at];
    if kind < kinds::PARALLEL {
        return nil_at(s, at, end_at(ends, at), dst, to);
    }
    if kind == kinds::PROTECTION {
        return copy_term(s, at, end_at(ends, at), dst, to);
    }
    copy_record(s, at, dst, to);
    let Places(next, then) = halt_at(s, ends, at + 16, dst, to + 16);
    if children(kind) == 2 {
        return halt_at(s, ends, next, dst, then);
    }
    Places(next, then)
}

// Writes the term at byte `at` as a kill leaves it that fires at byte `a` of it: nil for the kill, and what stands beside the way down to it halted.
pub fn aside_at(s: &[u8], ends: &[u16], at: usize, a: usize, dst: &mut [u8], to: usize) -> Places
    requires rewritable { Rewritable (halt_aside (place_in at a)) s.now at dst.old to }
    requires place_of { PlaceOf s.now ends.now at a }
    ensures { Rewrites (halt_aside (place_in at a)) s.now at dst.old to dst.new result.0 result.1 }
{
    if a == at {
        return nil_at(s, at, end_at(ends, at), dst, to);
    }
    copy_record(s, at, dst, to);
    if a < end_at(ends, at + 16) {
        let Places(next, then) = aside_at(s, ends, at + 16, a, dst, to + 16);
        if children(s[at]) == 2 {
            return halt_at(s, ends, next, dst, then);
        }
        return Places(next, then);
    }
    let Places(next, then) = halt_at(s, ends, at + 16, dst, to + 16);
    aside_at(s, ends, next, a, dst, then)
}
