// Cases of the papers that are no theorem, through public operations only. Standard input has a case on each line: its name, and the table's bytes
// in hexadecimal, with xN for N more of the last 16. A line of output has the name and the reply: answer, place, records.
// A case of a step goes on with the word >, the move's bytes in hexadecimal (- for none) and the output's length in decimal. Each byte of the output
// is aa before, and the line of output goes on with a sum over its bytes afterwards and with the first 64 of them in hexadecimal.
// A case of play goes on with the word >>, the lengths of the output and of the reply buffer, and the moves' bytes, with xN for N more of the last 6.
// Its line has the reply, the tally, and then of the output and of the reply buffer what a step's line has of its output.
// A case of load goes on with the word >#. Its line has the reply, with the load in place of the records.
// A case of the open moves goes on with the word >? and the list buffer's length. Its line has the reply, and of the buffer what a step's line has of its output.
// A case of a translation goes on with the word >!, the result endpoint's partner and operation and the output's length, all in decimal; a partner or operation over
// 65,535 is taken for 0. The bytes before the word are the script's, with xN for N more of the last 8. Its line has the reply, and of the output what a step's line has.
// A case of ticks goes on with the word >@, the earlier and the later reading in hexadecimal and the output's length in decimal. Its line is as that of a step.
// A case of a joint step goes on with the word >&, the output's length and the stops' positions, up to 16 of them, all in decimal; a position over 65,535 is taken for 0.
// Its line has the reply, the tally, and of the output what a step's line has.
#![tactic(auto)]

ghost use Rattle.std.specs.Prelude.{◌≡◌, ◌≢◌, ℕ, ◌≤◌, ◌<◌, ◌++◌, length, slice_index};

use std::io;
use std::io::{BufWriter, Read, Write};
use tables::Reply;
use tally::Tally;

// How much of standard input is read.
const MAX_INPUT: u64 = 393216;

// The bytes of a buffer for a table, a list, an output or replies.
const LARGE: usize = 65536;

// The bytes of a buffer for a move.
const SMALL: usize = 4096;

// What each byte of an output is before.
const BEFORE: u8 = 0xaa;

// The hexadecimal digits.
static DIGITS: [u8; 16] = *b"0123456789abcdef";

// The most positions of a joint step that are read.
const MOST_PLACES: usize = 16;

// What stands ahead of the first byte b, and the rest from that byte on; all and nothing where there is none.
fn cut(text: &[u8], b: u8) -> (&[u8], &[u8])
    ensures whole { result.0.now ++ result.1.now ≡ text.now }
    ensures before { (k : ℕ) → k < length result.0.now → slice_index result.0.now k ≢ b }
    ensures found { 0 < length result.1.now → slice_index result.1.now 0 ≡ b }
{
    match text.iter().position(|c| *c == b) {
        Some(i) => (&text[..i], &text[i..]),
        None => (text, &[]),
    }
}

// A hexadecimal digit's value, and 0 for what is none.
fn digit(b: u8) -> u8
    ensures { result < 16 }
{
    match b {
        b'0'..=b'9' => b - b'0',
        b'a'..=b'f' => b - b'a' + 10,
        _ => 0,
    }
}

// The number that a word has in decimal digits, not above a million.
fn number(word: &[u8]) -> usize
    ensures { result ≤ 1000015 }
{
    let mut n: usize = 0;
    for b in word {
        if 100000 < n {
            return n;
        }
        n = 10 * n + usize::from(digit(*b));
    }
    n
}

// A partner, an operation or a position in decimal digits, 0 for what is over 65,535.
fn atom(word: &[u8]) -> u16 {
    u16::try_from(number(word)).unwrap_or(0)
}

// A reading of the clock in hexadecimal digits, of which the last eight count.
fn reading(word: &[u8]) -> u32 {
    let mut n: u32 = 0;
    for b in word {
        n = n % 268435456 * 16 + u32::from(digit(*b));
    }
    n
}

// The bytes of a word in hexadecimal, put behind the table's first `len`; the table's new length.
fn put_hex(word: &[u8], table: &mut [u8], len: usize) -> usize
    requires { len ≤ length table.old }
    ensures { result ≤ length table.old }
{
    let mut at = len;
    for pair in word.chunks_exact(2) {
        if table.len() <= at {
            return at;
        }
        table[at] = 16 * digit(pair[0]) + digit(pair[1]);
        at += 1;
    }
    at
}

// The last `unit` bytes of the table's first `len`, n times more.
fn put_again(table: &mut [u8], len: usize, unit: usize, n: usize) -> usize
    requires { (len ≤ length table.old) × (unit ≤ 16) × (n ≤ 1000015) }
    ensures { result ≤ length table.old }
{
    if len < unit {
        return len;
    }
    let mut at = len;
    for _ in 0..unit * n {
        if table.len() <= at {
            return at;
        }
        table[at] = table[at - unit];
        at += 1;
    }
    at
}

// What a word spells, put behind the table's first `len`: xN is the last `unit` bytes N times more, all else is hexadecimal.
fn put_word(word: &[u8], table: &mut [u8], len: usize, unit: usize) -> usize
    requires { (len ≤ length table.old) × (unit ≤ 16) }
    ensures { result ≤ length table.old }
{
    match word {
        [b'x', digits @ ..] => put_again(table, len, unit, number(digits)),
        _ => put_hex(word, table, len),
    }
}

// The table that words spell, or the list of moves; its length.
fn spell(words: &[u8], table: &mut [u8], unit: usize) -> usize
    requires { unit ≤ 16 }
    ensures { result ≤ length table.old }
{
    let mut len = 0;
    for word in words.split(|b| *b == b' ') {
        len = put_word(word, table, len, unit);
    }
    len
}

// The positions that words have in decimal, each behind a blank, and how many there are: an empty word is 0.
fn spell_positions(words: &[u8], places: &mut [u16]) -> usize
    ensures { result ≤ length places.old }
{
    let mut n = 0;
    for word in words.split(|b| *b == b' ').skip(1) {
        if n == places.len() {
            return n;
        }
        places[n] = atom(word);
        n += 1;
    }
    n
}

fn print_reply(lines: &mut impl Write, r: Reply) -> io::Result<()> {
    write!(lines, " {} {} {}", r.answer, r.place, r.records)
}

fn print_tally(lines: &mut impl Write, t: Tally) -> io::Result<()> {
    write!(
        lines,
        " {} {} {} {}",
        t.communications, t.kills, t.timeouts, t.copied
    )
}

// The first 64 bytes in hexadecimal, or all where there are fewer. Digit by digit: `{b:02x}` takes a line of a short case twice the time.
fn print_first(lines: &mut impl Write, bytes: &[u8]) -> io::Result<()> {
    lines.write_all(b" ")?;
    for b in bytes.iter().take(64) {
        let pair = [DIGITS[usize::from(*b / 16)], DIGITS[usize::from(*b % 16)]];
        lines.write_all(&pair)?;
    }
    Ok(())
}

// A sum in which each byte and its place count.
fn checksum(bytes: &[u8]) -> usize {
    let mut sum: usize = 1;
    for b in bytes {
        sum = (31 * sum + usize::from(*b)) % 65521;
    }
    sum
}

// What is left in a buffer: the sum and the first bytes.
fn print_left(lines: &mut impl Write, bytes: &[u8]) -> io::Result<()> {
    write!(lines, " {}", checksum(bytes))?;
    print_first(lines, bytes)
}

// Runs an operation with all of a buffer, each byte of which is BEFORE: its reply, its tally if it has one, and what it leaves there.
fn print_run<F: FnOnce(&mut [u8]) -> (Reply, Option<Tally>)>(
    lines: &mut impl Write,
    out: &mut [u8],
    operation: F,
) -> io::Result<()>
    requires { F.IsAlwaysCallable operation }
{
    out.fill(BEFORE);
    let (reply, tally) = operation(&mut *out);
    print_reply(lines, reply)?;
    if let Some(tally) = tally {
        print_tally(lines, tally)?;
    }
    print_left(lines, out)
}

// A step: the move, and the output's length.
fn run_step(lines: &mut impl Write, args: &[u8], table: &[u8], out: &mut [u8]) -> io::Result<()> {
    let mut m = [0u8; SMALL];
    let (word, room) = cut(args, b' ');
    let got = put_word(word, &mut m, 0, 6);
    let Some(out) = out.get_mut(..number(room)) else {
        return Ok(());
    };
    print_run(
        lines,
        out,
        |out| (stepper::step(table, &m[..got], out), None),
    )
}

// Play: the lengths of the output and of the reply buffer, and the moves.
fn run_play(lines: &mut impl Write, args: &[u8], table: &[u8], out: &mut [u8]) -> io::Result<()> {
    let mut moves = [0u8; LARGE];
    let mut replies = [0u8; LARGE];
    let (room, [_, rest @ ..]) = cut(args, b' ') else {
        return Ok(());
    };
    let (slots, words) = cut(rest, b' ');
    let got = spell(words, &mut moves, 6);
    let (Some(out), Some(replies)) = (
        out.get_mut(..number(room)),
        replies.get_mut(..number(slots)),
    ) else {
        return Ok(());
    };
    replies.fill(BEFORE);
    print_run(lines, out, |out| {
        let played = player::play(table, &moves[..got], out, &mut *replies);
        (played.reply, Some(played.tally))
    })?;
    print_left(lines, replies)
}

// The open moves: the list buffer's length.
fn run_open(lines: &mut impl Write, room: &[u8], table: &[u8], out: &mut [u8]) -> io::Result<()> {
    let Some(list) = out.get_mut(..number(room)) else {
        return Ok(());
    };
    print_run(lines, list, |list| (lister::open(table, list), None))
}

// A translation: the result endpoint, and the output's length.
fn run_translation(
    lines: &mut impl Write,
    args: &[u8],
    script: &[u8],
    out: &mut [u8],
) -> io::Result<()> {
    let (partner, [_, rest @ ..]) = cut(args, b' ') else {
        return Ok(());
    };
    let (operation, room) = cut(rest, b' ');
    let partner = atom(partner);
    let operation = atom(operation);
    let Some(out) = out.get_mut(..number(room)) else {
        return Ok(());
    };
    print_run(lines, out, |out| {
        (translator::translate(script, partner, operation, out), None)
    })
}

// Ticks: the two readings, and the output's length.
fn run_ticks(lines: &mut impl Write, args: &[u8], table: &[u8], out: &mut [u8]) -> io::Result<()> {
    let (earlier, [_, rest @ ..]) = cut(args, b' ') else {
        return Ok(());
    };
    let (later, room) = cut(rest, b' ');
    let earlier = reading(earlier);
    let later = reading(later);
    let Some(out) = out.get_mut(..number(room)) else {
        return Ok(());
    };
    print_run(lines, out, |out| {
        (ticks::tick(table, earlier, later, out), None)
    })
}

// A joint step: the output's length, and the positions.
fn run_joint(lines: &mut impl Write, args: &[u8], table: &[u8], out: &mut [u8]) -> io::Result<()> {
    let mut kills = [0u16; MOST_PLACES];
    let (room, words) = cut(args, b' ');
    let n = spell_positions(words, &mut kills);
    let Some(out) = out.get_mut(..number(room)) else {
        return Ok(());
    };
    print_run(lines, out, |out| {
        let joined = stopper::joint(table, &kills[..n], out);
        (joined.reply, Some(joined.tally))
    })
}

// What a line asks of its table: what stands behind its > says it, and a line that ends there or has none asks for a check.
fn run_table(lines: &mut impl Write, order: &[u8], table: &[u8], out: &mut [u8]) -> io::Result<()> {
    match order {
        [] | [_] => print_reply(lines, tables::check(table)),
        [_, b' ', args @ ..] => run_step(lines, args, table, out),
        [_, b'#', ..] => print_reply(lines, player::load(table)),
        [_, b'?', args @ ..] => run_open(lines, args, table, out),
        [_, b'!', _, args @ ..] => run_translation(lines, args, table, out),
        [_, b'@', _, args @ ..] => run_ticks(lines, args, table, out),
        [_, b'&', _, args @ ..] => run_joint(lines, args, table, out),
        [_, _, _, args @ ..] => run_play(lines, args, table, out),
        [_, _] => Ok(()),
    }
}

// One case: a line.
fn run(lines: &mut impl Write, line: &[u8], table: &mut [u8], out: &mut [u8]) -> io::Result<()> {
    let (name, rest) = cut(line, b' ');
    let (words, order) = cut(rest, b'>');
    // How many bytes xN repeats: a script's record has 8, a table's 16.
    let unit = match order {
        [_, b'!', ..] => 8,
        _ => 16,
    };
    let len = spell(words, table, unit);
    lines.write_all(name)?;
    run_table(lines, order, &table[..len], out)?;
    lines.write_all(b"\n")
}

// Every line of a text.
fn run_all(
    lines: &mut impl Write,
    text: &[u8],
    table: &mut [u8],
    out: &mut [u8],
) -> io::Result<()> {
    let mut rest = text;
    while !rest.is_empty() {
        let (line, behind) = cut(rest, b'\n');
        run(lines, line, table, out)?;
        rest = match behind {
            [_, rest @ ..] => rest,
            [] => behind,
        };
    }
    Ok(())
}

fn main(rt: HostRuntime) -> io::Result<()> {
    let mut input = Vec::new(rt.alloc());
    rt.reader().take(MAX_INPUT).read_to_end(&mut input)?;
    let mut table = [0u8; LARGE];
    let mut out = [0u8; LARGE];
    let mut lines = BufWriter::new(rt.alloc(), io::writer(&rt))?;
    run_all(&mut lines, &input, &mut table, &mut out)?;
    lines.flush()
}
