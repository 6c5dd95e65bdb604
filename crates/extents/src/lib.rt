// Extents: how large the translation of an Orc script is, before a byte of it is written (20 and 21).
#![tactic(auto)]

ghost use Rattle.std.specs.Prelude.{◌≡◌, ◌≤◌};
ghost use Rattle.extents.specs.Extents.{added_by, deepened_by, Measurable, Measured};

use scripts::kinds;

// Of an expression: the place behind it, and the records and the depth of its translation.
#[derive(Clone, Copy)]
pub struct Extent {
    pub end: usize,
    pub records: usize,
    pub depth: usize,
}

// The records that the clause of a composition adds to those of its parts.
fn added(kind: u8) -> usize
    ensures { (result ≡ added_by kind) × (result ≤ 8) }
{
    match kind {
        kinds::PARALLEL => 1,
        kinds::SEQUENCE => 6,
        _ => 8,
    }
}

// The depth of a composition's translation by those of its parts'.
fn deepened(kind: u8, left: usize, right: usize) -> usize
    requires { (left ≤ 4096) × (right ≤ 4096) }
    ensures { result ≡ deepened_by kind left right }
{
    match kind {
        kinds::PARALLEL => 1 + left.max(right),
        kinds::SEQUENCE => (3 + left).max(6 + right),
        _ => (4 + left).max((6 + right).max(8)),
    }
}

// The extent of the expression at place i.
pub fn measure(s: &[u8], i: usize) -> Extent
    requires { Measurable s.now i }
    ensures { Measured s.now i result }
{
    let kind = s[8 * i];
    if kind < kinds::SEQUENCE {
        return Extent {
            end: i + 1,
            records: 1,
            depth: 1,
        };
    }
    let left = measure(s, i + 1);
    let right = measure(s, left.end);
    Extent {
        end: right.end,
        records: added(kind) + left.records + right.records,
        depth: deepened(kind, left.depth, right.depth),
    }
}
