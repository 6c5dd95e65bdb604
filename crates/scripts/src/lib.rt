// Scripts: an Orc script as 8-byte records: its kinds, the sets that its fields are tested for, and the first malformed record (30).
#![tactic(auto)]

pub mod kinds;

ghost use Rattle.std.specs.Prelude.{◌≡◌, ◌+◌, ◌*◌, ◌<◌, length, take, drop};
ghost use Rattle.cows.specs.Terms.{value, variable, datum};
ghost use Rattle.cows.specs.Cut.{cut, first_failing};
ghost use Rattle.records.specs.Answers.{found_of};
ghost use Rattle.orc.specs.Scripts.{right_record8};

use records::{limits, word_at};

// Where a result is sent: the site, and the operation that it is sent with.
#[derive(Clone, Copy)]
pub struct Endpoint {
    pub partner: u16,
    pub operation: u16,
}

// The three sets that a script's fields are tested for.
pub fn in_values(a: u16) -> bool
    ensures { result ≡ value a }
{
    (1..limits::FIRST_VARIABLE).contains(&a)
}

pub fn in_variables(a: u16) -> bool
    ensures { result ≡ variable a }
{
    (limits::FIRST_VARIABLE..limits::FIRST_LABEL).contains(&a)
}

fn in_data(a: u16) -> bool
    ensures { result ≡ datum a }
{
    in_values(a) | in_variables(a)
}

// The record at place i keeps the rules for single records.
fn record8_right(s: &[u8], i: usize) -> bool
    requires { 8 * i + 7 < length s.now }
    ensures { result ≡ right_record8 (take 8 (drop (8 * i) s.now)) }
{
    let k = 8 * i;
    let kind = s[k];
    let atom = word_at(s, k + 2);
    let partner = word_at(s, k + 4);
    let operation = word_at(s, k + 6);
    let call = (kind == kinds::CALL) & in_data(atom) & in_values(partner) & in_values(operation);
    let binding = ((kind == kinds::SEQUENCE) | (kind == kinds::WHERE)) & in_variables(atom);
    let plain = ((kind == kinds::NOTHING) | (kind == kinds::PARALLEL)) & (atom == 0);
    (s[k + 1] == 0) & (call | ((binding | plain) & (partner == 0) & (operation == 0)))
}

// The first record that is not right.
pub fn first_malformed(s: &[u8]) -> Option<usize>
    ensures { result ≡ found_of (first_failing right_record8 0 (cut 8 s.now)) }
{
    (0..s.len() / 8).find(|i| !record8_right(s, *i))
}
