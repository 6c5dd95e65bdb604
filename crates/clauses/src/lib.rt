// Clauses: the records that the clauses of a translation write before, between and behind those of their parts (orc, specs/Translation). Places are bytes of the output.
#![tactic(auto)]

ghost use Rattle.std.specs.Prelude.{◌≡◌, [], ◌∷◌, ◌+◌, ◌*◌, ◌≤◌, length};
ghost use Rattle.cows.specs.Terms.{kill, receive, delimitation, replication, parallel};
ghost use Rattle.cows.specs.Kinds.{basic, prefix, join};
ghost use Rattle.cows.specs.Format.{record16, bytes};
ghost use Rattle.records.specs.Rewrites.{put};
ghost use Rattle.orc.specs.Expressions.{Act, act};
ghost use Rattle.scripts.specs.Standing.{ScriptAt};
ghost use Rattle.clauses.specs.Parts.{words, sends, sequence_head, sequence_middle, where_head, where_middle, where_tail};

use records::copying::put_word;
use records::word_at;
use scripts::{Endpoint, kinds};

// A record by its eight numbers: kind and count in one, two atoms, the four slots of the tuple, and the interval.
fn put_fields(fields: [u16; 8], out: &mut [u8], at: usize)
    requires { at + 16 ≤ length out.old }
    ensures { out.new ≡ put out.old at (words fields) }
{
    for i in 0..8 {
        put_word(fields[i], out, at + 2 * i);
    }
}

fn put_delimitation(d: u16, out: &mut [u8], at: usize)
    requires { at + 16 ≤ length out.old }
    ensures { out.new ≡ put out.old at (record16 (prefix (delimitation d))) }
{
    put_fields([8, d, 0, 0, 0, 0, 0, 0], out, at);
}

fn put_replication(out: &mut [u8], at: usize)
    requires { at + 16 ≤ length out.old }
    ensures { out.new ≡ put out.old at (record16 (prefix replication)) }
{
    put_fields([9, 0, 0, 0, 0, 0, 0, 0], out, at);
}

fn put_kill(k: u16, out: &mut [u8], at: usize)
    requires { at + 16 ≤ length out.old }
    ensures { out.new ≡ put out.old at (record16 (basic (kill k))) }
{
    put_fields([1, k, 0, 0, 0, 0, 0, 0], out, at);
}

// The receive p·o?⟨x⟩.
fn put_receive(from: Endpoint, x: u16, out: &mut [u8], at: usize)
    requires { at + 16 ≤ length out.old }
    ensures { out.new ≡ put out.old at (record16 (prefix (receive from.partner from.operation (x ∷ [])))) }
{
    put_fields([259, from.partner, from.operation, x, 0, 0, 0, 0], out, at);
}

// Nothing, or the call of a site: the message of its parameter and the result endpoint.
pub fn put_act(s: &[u8], i: usize, to: Endpoint, out: &mut [u8], at: usize)
    requires { (8 * i + 8 ≤ length s.now) × (at + 16 ≤ length out.old) }
    ensures { (x : Act) → ScriptAt s.now i (act x) → out.new ≡ put out.old at (record16 (basic (sends to.partner to.operation x))) }
{
    if s[8 * i] == kinds::CALL {
        let site = word_at(s, 8 * i + 4);
        let service = word_at(s, 8 * i + 6);
        let w = word_at(s, 8 * i + 2);
        put_fields(
            [770, site, service, w, to.partner, to.operation, 0, 0],
            out,
            at,
        );
    } else {
        put_fields([0; 8], out, at);
    }
}

pub fn put_parallel(out: &mut [u8], at: usize)
    requires { at + 16 ≤ length out.old }
    ensures { out.new ≡ put out.old at (record16 (join parallel)) }
{
    put_fields([6, 0, 0, 0, 0, 0, 0, 0], out, at);
}

// What a sequence writes before its left part: [p, o](
pub fn put_sequence_head(e: Endpoint, out: &mut [u8], at: usize)
    requires { at + 48 ≤ length out.old }
    ensures { out.new ≡ put out.old at (bytes (sequence_head e.partner e.operation)) }
{
    put_delimitation(e.partner, out, at);
    put_delimitation(e.operation, out, at + 16);
    put_parallel(out, at + 32);
}

// And between its parts: *[x] p·o?⟨x⟩.
pub fn put_sequence_middle(e: Endpoint, x: u16, out: &mut [u8], at: usize)
    requires { at + 48 ≤ length out.old }
    ensures { out.new ≡ put out.old at (bytes (sequence_middle e.partner e.operation x)) }
{
    put_replication(out, at);
    put_delimitation(x, out, at + 16);
    put_receive(e, x, out, at + 32);
}

// What a where writes before its left part: [p, o, x](
pub fn put_where_head(e: Endpoint, x: u16, out: &mut [u8], at: usize)
    requires { at + 64 ≤ length out.old }
    ensures { out.new ≡ put out.old at (bytes (where_head e.partner e.operation x)) }
{
    put_delimitation(e.partner, out, at);
    put_delimitation(e.operation, out, at + 16);
    put_delimitation(x, out, at + 32);
    put_parallel(out, at + 48);
}

// Between its parts: [k](
pub fn put_where_middle(k: u16, out: &mut [u8], at: usize)
    requires { at + 32 ≤ length out.old }
    ensures { out.new ≡ put out.old at (bytes (where_middle k)) }
{
    put_delimitation(k, out, at);
    put_parallel(out, at + 16);
}

// And behind its right part: p·o?⟨x⟩.kill(k)
pub fn put_where_tail(e: Endpoint, x: u16, k: u16, out: &mut [u8], at: usize)
    requires { at + 32 ≤ length out.old }
    ensures { out.new ≡ put out.old at (bytes (where_tail e.partner e.operation x k)) }
{
    put_receive(e, x, out, at);
    put_kill(k, out, at + 16);
}
