// Translating: one pass over an Orc script that writes its translation, by source document 002's clauses. The new values are the first without a mark, in their order;
// the new labels are the first of all, since a script has none.
#![tactic(auto)]

ghost use Rattle.std.specs.Prelude.{◌≡◌, ◌+◌, ◌*◌, ◌<◌, get_or};
ghost use Rattle.spares.specs.Spares.{NextSpare};
ghost use Rattle.translating.specs.Writing.{spent, Writable, Writes};

use clauses::{
    put_act, put_parallel, put_sequence_head, put_sequence_middle, put_where_head,
    put_where_middle, put_where_tail,
};
use records::word_at;
use scripts::{Endpoint, kinds};
use spares::{SPARES, next_spare};

// Where the pass stands: the next record of the script, the next byte of the output, and the first value and the first label that are still to be had.
#[derive(Clone, Copy)]
pub struct Pass {
    pub place: usize,
    pub byte: usize,
    pub value: u16,
    pub label: u16,
}

// A new endpoint, of the next two values without a mark from v on.
fn next_endpoint(used: &[bool; SPARES], v: u16) -> Endpoint
    requires { spent used.now v + 1 < 4096 }
    ensures { NextSpare used.now v result.partner × NextSpare used.now (result.partner + 1) result.operation }
{
    let partner = next_spare(used, v);
    Endpoint {
        partner,
        operation: next_spare(used, partner + 1),
    }
}

// f | g: a record, then f, then g, with one result endpoint.
#[cycle(write_write_parallel_write_sequence_write_where)]
fn write_parallel(s: &[u8], used: &[bool; SPARES], at: Pass, to: Endpoint, out: &mut [u8]) -> Pass
    requires { Writable s.now used.now at out.old × (get_or s.now (8 * at.place) 0 ≡ 3) }
    ensures { Writes s.now used.now at to.partner to.operation out.old out.new result }
{
    put_parallel(out, at.byte);
    let first = Pass {
        place: at.place + 1,
        byte: at.byte + 16,
        ..at
    };
    let left = write(s, used, first, to, out);
    write(s, used, left, to, out)
}

// f >x> g: f sends its results to the new endpoint p·o, where a copy of g takes each.
#[cycle(write_write_parallel_write_sequence_write_where)]
fn write_sequence(s: &[u8], used: &[bool; SPARES], at: Pass, to: Endpoint, out: &mut [u8]) -> Pass
    requires { Writable s.now used.now at out.old × (get_or s.now (8 * at.place) 0 ≡ 2) }
    ensures { Writes s.now used.now at to.partner to.operation out.old out.new result }
{
    let x = word_at(s, 8 * at.place + 2);
    let inner = next_endpoint(used, at.value);
    put_sequence_head(inner, out, at.byte);
    let first = Pass {
        place: at.place + 1,
        byte: at.byte + 48,
        value: inner.operation + 1,
        ..at
    };
    let left = write(s, used, first, inner, out);
    put_sequence_middle(inner, x, out, left.byte);
    let second = Pass {
        byte: left.byte + 48,
        ..left
    };
    write(s, used, second, to, out)
}

// g where x :∈ f: f sends its results to the new endpoint p·o, and the first that is taken there ends f. The label is taken when g has taken its own.
#[cycle(write_write_parallel_write_sequence_write_where)]
fn write_where(s: &[u8], used: &[bool; SPARES], at: Pass, to: Endpoint, out: &mut [u8]) -> Pass
    requires { Writable s.now used.now at out.old × (get_or s.now (8 * at.place) 0 ≡ 4) }
    ensures { Writes s.now used.now at to.partner to.operation out.old out.new result }
{
    let x = word_at(s, 8 * at.place + 2);
    let inner = next_endpoint(used, at.value);
    put_where_head(inner, x, out, at.byte);
    let first = Pass {
        place: at.place + 1,
        byte: at.byte + 64,
        value: inner.operation + 1,
        ..at
    };
    let left = write(s, used, first, to, out);
    let k = left.label;
    put_where_middle(k, out, left.byte);
    let second = Pass {
        byte: left.byte + 32,
        label: k + 1,
        ..left
    };
    let right = write(s, used, second, inner, out);
    put_where_tail(inner, x, k, out, right.byte);
    Pass {
        byte: right.byte + 32,
        ..right
    }
}

// Reads the expression where the pass stands, and writes its translation with the result endpoint `to`.
#[cycle(write_write_parallel_write_sequence_write_where)]
pub fn write(s: &[u8], used: &[bool; SPARES], at: Pass, to: Endpoint, out: &mut [u8]) -> Pass
    requires { Writable s.now used.now at out.old }
    ensures { Writes s.now used.now at to.partner to.operation out.old out.new result }
{
    match s[8 * at.place] {
        kinds::PARALLEL => write_parallel(s, used, at, to, out),
        kinds::SEQUENCE => write_sequence(s, used, at, to, out),
        kinds::WHERE => write_where(s, used, at, to, out),
        _ => {
            put_act(s, at.place, to, out, at.byte);
            Pass {
                place: at.place + 1,
                byte: at.byte + 16,
                ..at
            }
        }
    }
}
