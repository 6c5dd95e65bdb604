// Plans: what judging a move answers, and what two moves share, the cut that makes way for a continuation.
#![tactic(auto)]

pub mod cutting;

// Why a move is refused, with the place that is told, or of `Differs` the number of what differs: the refusals 10 to 18, and 20. Of 20 no place is told; `Large` has
// the one from which on the table would change.
#[derive(Clone, Copy, Debug, PartialEq, Eq)]
pub enum Refusal {
    Unread,
    Absent(usize),
    Differs(usize),
    Apart(usize),
    Held(usize),
    Looser(usize),
    Unripe(usize),
    Timeless,
    Stuck(usize),
    Large(usize),
}

// An allowed move: how many records its successor has, and from which place on the table changes.
#[derive(Clone, Copy, Debug, PartialEq, Eq)]
pub struct Plan {
    pub records: usize,
    pub from: usize,
}
