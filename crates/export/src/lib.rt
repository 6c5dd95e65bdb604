// Export: the public operations under C names, for the static library that C and Rust programs link. A reply comes back as one number, so that
// no lent buffer can be too short for it.
#![tactic(auto)]

ghost use Rattle.std.specs.Prelude.{◌≡◌};
ghost use Rattle.cows.specs.Tables.{judge};
ghost use Rattle.tables.specs.Verdict.{check_reply};
ghost use Rattle.player.specs.Loads.{load_reply};
ghost use Rattle.export.specs.Packing.{Fits, packed, StepPacked, TicksPacked, four_counts, PlayedWith, JointPacked, OpenPacked, OrcPacked};

use tables::Reply;
use tally::Tally;

// A reply in 64 bits: the answer in the lowest 8, the place in the 24 above them, the records in the highest 32.
// The C interface (include/wigandoy.h) takes a number and no struct. A function and no `From`: not every `Reply` fits.
fn pack(r: Reply) -> u64
    requires { Fits r }
    ensures { result ≡ packed r }
{
    let answer = r.answer as u64;
    let place = r.place as u64;
    let records = r.records as u64;
    answer + 256 * place + 4294967296 * records
}

// A tally in four numbers: the C interface lends an array of them.
fn four_counts(c: Tally) -> [u32; 4]
    ensures { result ≡ four_counts c }
{
    [c.communications, c.kills, c.timeouts, c.copied]
}

// Whether bytes are a well-formed table: `tables::check`, packed.
#[unsafe(no_mangle)]
pub extern "C" fn wigandoy_check(table: &[u8]) -> u64
    ensures { result ≡ packed (check_reply (judge table.now)) }
{
    pack(tables::check(table))
}

// One move on a table: `stepper::step`, packed.
#[unsafe(no_mangle)]
pub extern "C" fn wigandoy_step(table: &[u8], m: &[u8], out: &mut [u8]) -> u64
    ensures { StepPacked table.now m.now out.old out.new result }
{
    pack(stepper::step(table, m, out))
}

// A time move from two readings of a clock: `ticks::tick`, packed.
#[unsafe(no_mangle)]
pub extern "C" fn wigandoy_ticks(table: &[u8], earlier: u32, later: u32, out: &mut [u8]) -> u64
    ensures { TicksPacked table.now earlier later out.old out.new result }
{
    pack(ticks::tick(table, earlier, later, out))
}

// The load of a table: `player::load`, packed.
#[unsafe(no_mangle)]
pub extern "C" fn wigandoy_load(table: &[u8]) -> u64
    ensures { result ≡ packed (load_reply (judge table.now)) }
{
    pack(player::load(table))
}

// A list of moves on a table: `player::play`, its reply packed and its tally in four numbers.
#[unsafe(no_mangle)]
pub extern "C" fn wigandoy_play(
    table: &[u8],
    moves: &[u8],
    out: &mut [u8],
    replies: &mut [u8],
    tally: &mut [u32; 4],
) -> u64
    ensures { PlayedWith table.now moves.now out.old out.new replies.old replies.new tally.new result }
{
    let played = player::play(table, moves, out, replies);
    *tally = four_counts(played.tally);
    pack(played.reply)
}

// Several kills as one step: `stopper::joint`, its reply packed and its tally in four numbers.
#[unsafe(no_mangle)]
pub extern "C" fn wigandoy_joint(
    table: &[u8],
    kills: &[u16],
    out: &mut [u8],
    tally: &mut [u32; 4],
) -> u64
    ensures { JointPacked table.now kills.now out.old out.new tally.new result }
{
    let joined = stopper::joint(table, kills, out);
    *tally = four_counts(joined.tally);
    pack(joined.reply)
}

// What can happen now: `lister::open`, packed.
#[unsafe(no_mangle)]
pub extern "C" fn wigandoy_open(table: &[u8], list: &mut [u8]) -> u64
    ensures { OpenPacked table.now list.old list.new result }
{
    pack(lister::open(table, list))
}

// An Orc script into a table: `translator::translate`, packed.
#[unsafe(no_mangle)]
pub extern "C" fn wigandoy_orc(script: &[u8], partner: u16, operation: u16, out: &mut [u8]) -> u64
    ensures { OrcPacked script.now partner operation out.old out.new result }
{
    pack(translator::translate(script, partner, operation, out))
}
