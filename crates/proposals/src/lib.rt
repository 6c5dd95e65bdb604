// Proposals: a move as it is proposed, in six bytes: kind, a zero byte, number a, number b, which only a communication uses. It is read once, here.
#![tactic(auto)]

ghost use Rattle.std.specs.Prelude.{◌≡◌};
ghost use Rattle.cows.specs.Step.{right_move, read_move};
ghost use Rattle.proposals.specs.Proposals.{read_as};

use records::word_at;

// One of the six moves.
#[derive(Clone, Copy, Debug, PartialEq, Eq)]
pub enum Move {
    Kill(usize),
    Communicate(usize, usize),
    Timeout(usize),
    Elapse(u16),
    Unfold(usize),
    Extrude(usize),
}

// Whether the bytes have the form of a move, whatever its kind.
fn right_move(m: &[u8]) -> bool
    ensures { result ≡ right_move m.now }
{
    if m.len() != 6 {
        return false;
    }
    (m[1] == 0) & ((m[0] == 1) | (word_at(m, 4) == 0))
}

// The move that the bytes are, or none: refusal 10.
pub fn read_move(m: &[u8]) -> Option<Move>
    ensures { read_as result ≡ read_move m.now }
{
    if !right_move(m) {
        return None;
    }
    let kind = m[0];
    let d = word_at(m, 2);
    let a = usize::from(d);
    match kind {
        0 => Some(Move::Kill(a)),
        1 => Some(Move::Communicate(a, usize::from(word_at(m, 4)))),
        2 => Some(Move::Timeout(a)),
        3 => Some(Move::Elapse(d)),
        4 => Some(Move::Unfold(a)),
        5 => Some(Move::Extrude(a)),
        _ => None,
    }
}
