// Tables: whether bytes are a well-formed table, or the refusal of 1 to 7 with its place.
#![tactic(auto)]

mod quick;

ghost use Rattle.std.specs.Prelude.{◌≡◌, ◌+◌, ◌/◌, ◌<◌, ◌≤◌, min, length};
ghost use Rattle.cows.specs.Limits.{max_records};
ghost use Rattle.cows.specs.Terms.{Term};
ghost use Rattle.cows.specs.Tables.{judge_term, judge};
ghost use Rattle.records.specs.Holds.{Holds};
ghost use Rattle.records.specs.Ends.{EndsFrom};
ghost use Rattle.readers.specs.Reads.{Readable};
ghost use Rattle.tables.specs.Verdict.{refusal, accepted, scope_fault, verdict_reply, check_reply, Checked, judge_scopes, judge_shape, WholeRecords, RightRecords};

use records::limits;
use scopes::ScopeFault;

// Why bytes are no well-formed table: the refusals 1 to 7 in their order, all but the first with their place.
#[derive(Clone, Copy, PartialEq, Eq, Debug)]
pub enum Fault {
    Length,
    Record(usize),
    Shape(usize),
    Deep(usize),
    Choice(usize),
    Open(usize),
    Clash(usize),
}

// Answer, place and records, as document 01 numbers them.
#[derive(Clone, Copy)]
pub struct Reply {
    pub answer: u8,
    pub place: usize,
    pub records: usize,
}

// A refusal: its number, its place and no records.
pub fn refusal(answer: u8, place: usize) -> Reply
    ensures { result ≡ refusal answer place }
{
    Reply {
        answer,
        place,
        records: 0,
    }
}

// What is accepted: 0, place 0 and its records.
pub fn accepted(records: usize) -> Reply
    ensures { result ≡ accepted records }
{
    Reply {
        answer: 0,
        place: 0,
        records,
    }
}

impl From<ScopeFault> for Fault {
    ghost from_gives = { λ f r. r ≡ scope_fault f };

    fn from(f: ScopeFault) -> Fault {
        match f {
            ScopeFault::Open(p) => Fault::Open(p),
            ScopeFault::Clash(p) => Fault::Clash(p),
        }
    }
}

impl From<Result<usize, Fault>> for Reply {
    ghost from_gives = { λ v r. r ≡ verdict_reply v };

    fn from(v: Result<usize, Fault>) -> Reply {
        match v {
            Ok(n) => accepted(n),
            Err(Fault::Length) => refusal(1, 0),
            Err(Fault::Record(p)) => refusal(2, p),
            Err(Fault::Shape(p)) => refusal(3, p),
            Err(Fault::Deep(p)) => refusal(4, p),
            Err(Fault::Choice(p)) => refusal(5, p),
            Err(Fault::Open(p)) => refusal(6, p),
            Err(Fault::Clash(p)) => refusal(7, p),
        }
    }
}

// Refusals 6 and 7 of a table that holds a term.
fn find_scopes(s: &[u8], ends: &[u16]) -> Result<usize, Fault>
    requires { EndsFrom s.now ends.now 0 }
    ensures { (t : Term) → Holds s.now t → verdict_reply result ≡ check_reply (judge_scopes t) }
{
    scopes::scope_faults(s, ends)?;
    Ok(s.len() / 16)
}

// Refusals 4 to 7 of a table that holds a term.
fn find_fault(s: &[u8], ends: &[u16]) -> Result<usize, Fault>
    requires { Readable s.now ends.now 0 }
    ensures { (t : Term) → Holds s.now t → verdict_reply result ≡ check_reply (judge_term t) }
{
    if let Some(p) = depths::first_deep(s, ends, 0, 1) {
        return Err(Fault::Deep(p));
    }
    readers::read_on(s, ends, 0).map_err(Fault::Choice)?;
    find_scopes(s, ends)
}

// Refusals 3 to 7 of right records, each by a search, with the ends found again, on any shape.
fn find_misshape(s: &[u8], ends: &mut [u16]) -> Result<usize, Fault>
    requires { RightRecords s.now × (length s.now / 16 + 1 < length ends.old) }
    ensures { (verdict_reply result ≡ check_reply (judge_shape s.now)) × EndsFrom s.now ends.new 0 }
{
    let n = s.len() / 16;
    records::ends::ends(s, ends);
    let end = usize::from(ends[0]);
    if end != n {
        return Err(Fault::Shape(end.min(n)));
    }
    find_fault(s, ends)
}

// All refusals of whole records, each by a search. Not inlined, so that its frame does not stand below the quick test's.
#[inline(never)]
fn find_refusal(s: &[u8], ends: &mut [u16]) -> Result<usize, Fault>
    requires { WholeRecords s.now × (length s.now / 16 + 1 < length ends.old) }
    ensures { Checked s.now ends.new (verdict_reply result) }
{
    if let Some(p) = ranges::find_wrong(s) {
        return Err(Fault::Record(p));
    }
    find_misshape(s, ends)
}

// All refusals of whole records: the quick test comes first, and what it does not accept is searched.
fn judge_records(s: &[u8], ends: &mut [u16]) -> Result<usize, Fault>
    requires { WholeRecords s.now × (length s.now / 16 + 1 < length ends.old) }
    ensures { Checked s.now ends.new (verdict_reply result) }
{
    if quick::right(s, ends) {
        return Ok(s.len() / 16);
    }
    find_refusal(s, ends)
}

// All refusals of a table; `ends` takes the ends of the terms of an accepted one.
fn judge_table(s: &[u8], ends: &mut [u16]) -> Result<usize, Fault>
    requires { min (length s.now / 16) max_records + 1 < length ends.old }
    ensures { Checked s.now ends.new (verdict_reply result) }
{
    let n = s.len();
    if (n == 0) | (limits::MAX_BYTES < n) | (n % 16 != 0) {
        return Err(Fault::Length);
    }
    judge_records(s, ends)
}

// Whether bytes are a well-formed table, as `check` says, with the ends of its terms if it is.
pub fn check_ends(table: &[u8], ends: &mut [u16]) -> Reply
    requires { min (length table.now / 16) max_records + 1 < length ends.old }
    ensures { Checked table.now ends.new result }
{
    Reply::from(judge_table(table, ends))
}

// The same with room for so many ends of its own.
fn check_within<const ROOM: usize>(table: &[u8]) -> Reply
    requires { (min (length table.now / 16) max_records + 1 < ROOM) × (ROOM ≤ 65536) }
    ensures { result ≡ check_reply (judge table.now) }
{
    let mut ends = [0u16; ROOM];
    check_ends(table, &mut ends)
}

// Whether bytes are a well-formed table: 0, 0 and the number of records, or the refusal of 1 to 7, its place and 0.
pub fn check(table: &[u8]) -> Reply
    ensures { result ≡ check_reply (judge table.now) }
{
    if table.len() <= 512 {
        return check_within::<34>(table);
    }
    if table.len() <= 4096 {
        return check_within::<258>(table);
    }
    check_within::<{ limits::ENDS }>(table)
}
