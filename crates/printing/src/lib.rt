// Printing: the night of two files, a line for each move and the total at the end. The programs only name the files.
#![tactic(auto)]

ghost use Rattle.std.specs.Prelude.{◌≡◌, ◌+◌, ◌*◌, ◌/◌, ◌<◌, ◌≤◌, length, take, IfSome, IfOk, OnErr};
ghost use Rattle.std.specs.Counts.{IsPrefixLen};
ghost use Rattle.cows.specs.Tables.{judge};
ghost use Rattle.player.specs.Loads.{load_reply};

use records::{limits, word_at};
use std::fs::File;
use std::io::{BufWriter, Read, Write};
use std::rt::Files;
use std::{io, str};
use tables::Reply;
use tally::Tally;

// A move: its number, its kind byte, and the answer, place and records of its reply.
fn print_move(lines: &mut impl Write, number: usize, m: &[u8], reply: &[u8]) -> io::Result<()>
    requires { (0 < length m.now) × (5 < length reply.now) }
{
    let kind = m[0];
    let answer = word_at(reply, 0);
    let place = word_at(reply, 2);
    let records = word_at(reply, 4);
    writeln!(lines, "{number} {kind} {answer} {place} {records}")
}

// Every move of the list, each with its reply, numbered from 1.
fn print_moves(lines: &mut impl Write, moves: &[u8], replies: &[u8]) -> io::Result<()> {
    let both = moves.chunks_exact(6).zip(replies.chunks_exact(6));
    for (i, (m, reply)) in both.enumerate() {
        print_move(lines, i + 1, m, reply)?;
    }
    Ok(())
}

// The bytes behind the last move, if there are any.
fn print_tail(lines: &mut impl Write, n: usize) -> io::Result<()> {
    if n == 0 {
        return Ok(());
    }
    writeln!(lines, "tail {n}")
}

fn print_total(lines: &mut impl Write, t: Tally, left: usize) -> io::Result<()> {
    writeln!(
        lines,
        "total {} {} {} {left}",
        t.communications, t.kills, t.timeouts
    )
}

// The refusal of a whole night: of its list, or of its table.
fn print_refusal(lines: &mut impl Write, r: Reply) -> io::Result<()> {
    let what = if r.answer == 19 { "moves" } else { "table" };
    writeln!(lines, "{what} {} {}", r.answer, r.place)
}

// The load of the table of n records that an output begins with.
fn load_left(out: &[u8], n: usize) -> usize
    requires { 16 * n ≤ length out.now }
    ensures { result ≡ (load_reply (judge (take (16 * n) out.now))).records }
{
    let size = 16 * n;
    let load = player::load(&out[..size]);
    load.records
}

// Plays the moves on the table and prints the night.
fn play(lines: &mut impl Write, table: &[u8], moves: &[u8]) -> io::Result<()>
    requires { length moves.now ≤ 60001 }
{
    let mut out = [0u8; limits::MAX_BYTES];
    let mut replies = [0u8; limits::MAX_LIST_BYTES];
    let played = player::play(table, moves, &mut out, &mut replies);
    let reply = played.reply;
    if reply.answer != 0 {
        return print_refusal(lines, reply);
    }
    print_moves(lines, moves, &replies)?;
    print_tail(lines, moves.len() % 6)?;
    print_total(lines, played.tally, load_left(&out, reply.records))
}

// Reads until the buffer is full, the input ends or a read fails; how many bytes there are. They are the first bytes of the input.
fn read_full<R: Read>(input: &mut R, buffer: &mut [u8]) -> usize
    ensures bound { IsPrefixLen result buffer.new }
    ensures bytes { IfSome (R.remaining input.old) (λ all. take result buffer.new ≡ take result all) }
{
    let mut done = 0;
    // Each read says how far the next begins.
    while done < buffer.len() {
        let Ok(n) = input.read(&mut buffer[done..]) else {
            return done;
        };
        if n == 0 {
            return done;
        }
        done += n;
    }
    done
}

// The bytes of a file that was opened, none if it could not be; how many there are.
fn read_opened<F: Read + Drop>(opened: io::Result<F>, buffer: &mut [u8]) -> usize
    ensures missing { OnErr opened (result ≡ 0) }
    ensures bound { IsPrefixLen result buffer.new }
    ensures bytes { IfOk opened (λ file. IfSome (F.remaining file) (λ all. take result buffer.new ≡ take result all)) }
{
    let Ok(mut file) = opened else {
        return 0;
    };
    read_full(&mut file, buffer)
}

// The bytes of a file, none if it cannot be opened; how many there are. A name that is no text is the name of no file that std opens.
fn read(rt: &impl Files, name: &[u8], buffer: &mut [u8]) -> usize
    ensures { IsPrefixLen result buffer.new }
{
    match str::from_utf8(name) {
        Ok(name) => read_opened(File::open(rt, name), buffer),
        Err(_) => 0,
    }
}

// Plays the night of a table's file and a list's file. Each buffer has room for one byte more than the limit, so that what is too long is refused and not cut.
pub fn play_files(rt: &(impl Files + Print + Alloc), table: &[u8], moves: &[u8]) -> io::Result<()> {
    let mut records = [0u8; 32769];
    let mut list = [0u8; 60001];
    let n = read(rt, table, &mut records);
    let m = read(rt, moves, &mut list);
    let mut lines = BufWriter::new(rt.alloc(), io::writer(rt))?;
    play(&mut lines, &records[..n], &list[..m])?;
    lines.flush()
}
