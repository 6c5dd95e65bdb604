// What play writes: the reply to a move, and the last table with zeros behind it.
ghost use Rattle.std.specs.Prelude.{◌≡◌, cond, ◌++◌, ◌+◌, ◌*◌, ◌-◌, ◌≤◌, ◌<◌, length, take, drop, replicate};
ghost use Rattle.cows.specs.Limits.{max_bytes, max_records};
ghost use Rattle.records.specs.Rewrites.{put};
ghost use Rattle.player.specs.Nights.{six_bytes};

use records::copying::{copy, put_word};
use records::limits;
use tables::Reply;

// The six bytes of a reply: answer, place and records.
pub fn put_reply(r: Reply, replies: &mut [u8], at: usize)
    requires { (at + 5 < length replies.old) × (r.place < 65536) × (r.records < 65536) }
    ensures { replies.new ≡ put replies.old at (six_bytes r.answer r.place r.records) }
{
    put_word(u16::from(r.answer), replies, at);
    put_word(r.place as u16, replies, at + 2);
    put_word(r.records as u16, replies, at + 4);
}

// Zeros, so many from a byte on.
fn put_zeros(out: &mut [u8], to: usize, len: usize)
    requires { to + len ≤ length out.old }
    ensures { out.new ≡ put out.old to (replicate len 0) }
{
    out[to..to + len].fill(0);
}

// The table of n records that lies in a buffer, and zeros up to byte 32,768.
fn put_table(from: &[u8], n: usize, out: &mut [u8])
    requires { (16 * n ≤ length from.now) × (n ≤ max_records) × (max_bytes ≤ length out.old) }
    ensures { out.new ≡ take (16 * n) from.now ++ replicate (max_bytes - 16 * n) 0 ++ drop max_bytes out.old }
{
    copy(from, 0, 16 * n, out, 0);
    put_zeros(out, 16 * n, limits::MAX_BYTES - 16 * n);
}

// The last table, of n records, in the output, and zeros up to byte 32,768: it lies in the other buffer or is there already.
pub fn put_last(second: bool, other: &[u8], n: usize, out: &mut [u8])
    requires { (16 * n ≤ length other.now) × (n ≤ max_records) × (max_bytes ≤ length out.old) }
    ensures { out.new ≡ take (16 * n) (cond second other.now out.old) ++ replicate (max_bytes - 16 * n) 0 ++ drop max_bytes out.old }
{
    if second {
        put_table(other, n, out);
        return;
    }
    put_zeros(out, 16 * n, limits::MAX_BYTES - 16 * n);
}
