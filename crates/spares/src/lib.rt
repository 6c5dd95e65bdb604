// Spares: the values that a translation may take: a mark for each of the first 4,096 values that a script or its result endpoint holds, and the next value without one.
#![tactic(auto)]

ghost use Rattle.std.specs.Prelude.{◌≡◌, ◌+◌, ◌*◌, ◌<◌, ◌≤◌, length, take, drop};
ghost use Rattle.orc.specs.Expressions.{Orc, records_in};
ghost use Rattle.orc.specs.Scripts.{read_orc_node};
ghost use Rattle.orc.specs.Translation.{taken_by};
ghost use Rattle.scripts.specs.Standing.{ScriptOf};
ghost use Rattle.spares.specs.Spares.{total, Holding, HeldToo, HeldIn, NextSpare};

use records::word_at;
use scripts::{Endpoint, kinds};

// The marks: more than a script holds values and a translation takes.
pub const SPARES: usize = 4096;

// Marks the value a, if it has a mark.
fn hold(used: &mut [bool; SPARES], a: u16)
    ensures { HeldToo used.old a used.new }
{
    let k = usize::from(a);
    if k < SPARES {
        used[k] = true;
    }
}

// Marks the values that the record at place i of the script s holds.
fn hold_record(s: &[u8], i: usize, used: &mut [bool; SPARES])
    requires { 8 * i + 8 ≤ length s.now }
    ensures { HeldIn used.old (read_orc_node (take 8 (drop (8 * i) s.now))) used.new }
{
    if s[8 * i] == kinds::CALL {
        hold(used, word_at(s, 8 * i + 2));
        hold(used, word_at(s, 8 * i + 6));
        hold(used, word_at(s, 8 * i + 4));
    }
}

// The marks of the values that the script s and its result endpoint hold.
pub fn held(s: &[u8], to: Endpoint) -> [bool; SPARES]
    requires { (e : Orc) × ScriptOf s.now e }
    ensures { (e : Orc) → ScriptOf s.now e → Holding result (taken_by to.partner to.operation e) × (total result ≤ 2 + 3 * records_in e) }
{
    let mut used = [false; SPARES];
    hold(&mut used, to.partner);
    hold(&mut used, to.operation);
    for i in 0..s.len() / 8 {
        hold_record(s, i, &mut used);
    }
    used
}

// The first value from v on without a mark.
pub fn next_spare(used: &[bool; SPARES], v: u16) -> u16
    requires { v + total (drop v used.now) < 4096 }
    ensures { NextSpare used.now v result }
{
    (v..SPARES as u16).find(|n| !used[usize::from(*n)]).unwrap()
}
