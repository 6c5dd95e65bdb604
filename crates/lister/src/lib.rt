// Lister: every open move of a table at once, any bytes for it (request 2026-01): the reply, and the moves in the list's buffer.
#![tactic(auto)]

ghost use Rattle.std.specs.Prelude.{◌≡◌, ℕ, ◌+◌, ◌*◌, ◌/◌, ◌<◌, ◌≤◌, min, length};
ghost use Rattle.cows.specs.Limits.{max_records};
ghost use Rattle.cows.specs.Terms.{Term};
ghost use Rattle.records.specs.Rewrites.{put};
ghost use Rattle.ways.specs.Known.{Table};
ghost use Rattle.ways.specs.TermOf.{TermOf};
ghost use Rattle.roles.specs.Roles.{Unassigned, Cast};
ghost use Rattle.chains.specs.Chains.{ByAtom};
ghost use Rattle.meetings.specs.Surveys.{Surveyed};
ghost use Rattle.opening.specs.Opening.{each, six_byte_form, open_moves};
ghost use Rattle.lister.specs.Listing.{Enough, alone_in, listing, Answered, Listed, Opened};
ghost use Rattle.lister.specs.Claims.{Claims};

use assigning::{assign_live, assign_ready};
use chains::{Chains, chain_scopes, chain_senders};
use deepest::dismiss_deep;
use entries::{count, put_kind};
use meetings::{Survey, find_scopes, put_meetings};
use records::limits;
use rivals::find_fewest;
use roles::Role;
use tables::{Reply, accepted, refusal};
use ways::KnownTable;

// How many moves are open beside the meetings.
fn count_alone(cast: &[Role]) -> usize
    requires { length cast.now ≤ max_records }
    ensures { (result ≡ alone_in cast.now (length cast.now)) × (result ≤ 4 * length cast.now) }
{
    let own = count(cast, Role::Kill) + count(cast, Role::Timeout);
    own + count(cast, Role::Unfold) + count(cast, Role::Extrude)
}

// Writes all parts of the list, in the request's order; how many moves there are.
fn put_all(x: &Survey, list: &mut [u8]) -> usize
    requires { Surveyed x.now × Enough x.now (length list.old) }
    ensures { (t : Term) → Table x.now.table.bytes.now x.now.table.ends.now t → (result ≡ length (open_moves t)) × (list.new ≡ put list.old 0 (each six_byte_form (open_moves t))) }
{
    let n = x.table.bytes.len() / 16;
    let cast = &x.cast[..n];
    let kills = put_kind(cast, Role::Kill, 0, list, 0);
    let met = put_meetings(x, true, list, kills);
    let timeouts = put_kind(cast, Role::Timeout, 2, list, met);
    let unfolds = put_kind(cast, Role::Unfold, 4, list, timeouts);
    put_kind(cast, Role::Extrude, 5, list, unfolds)
}

// The list, for which there is room, and its reply.
fn write_all(x: &Survey, list: &mut [u8]) -> Reply
    requires { Surveyed x.now × Enough x.now (length list.old) }
    ensures { Listed x.now list.old list.new result }
{
    accepted(put_all(x, list))
}

// The meetings are counted, and the list is written if there is room for it.
fn write_counted(x: &Survey, list: &mut [u8], alone: usize) -> Reply
    requires { Surveyed x.now × (alone ≡ alone_in x.now.cast.now (length x.now.table.bytes.now / 16)) × (alone ≤ 4 * max_records) }
    ensures { Listed x.now list.old list.new result }
{
    let number = put_meetings(x, false, list, alone);
    if list.len() < 6 * number {
        return refusal(22, number);
    }
    write_all(x, list)
}

// The reply, and the list if there is room for it. No more meetings are open than there are pairs of a receive and an invoke that may be parties: where there is
// room for all of those, nothing is counted first.
fn write_list(x: &Survey, list: &mut [u8]) -> Reply
    requires { Surveyed x.now }
    ensures { Listed x.now list.old list.new result }
{
    let n = x.table.bytes.len() / 16;
    let cast = &x.cast[..n];
    let alone = count_alone(cast);
    let receivers = count(cast, Role::Receiver);
    let senders = count(cast, Role::Sender);
    if list.len() < 6 * (alone + receivers * senders) {
        return write_counted(x, list, alone);
    }
    write_all(x, list)
}

// The role of each record; `cast` has none yet.
fn assign(table: KnownTable, scopes: &Chains, cast: &mut [Role])
    requires { ByAtom table.bytes.now scopes.now.heads.now scopes.now.next.now × (length table.bytes.now / 16 ≤ length cast.old) }
    ensures { (t : Term) → TermOf table.entry t → Unassigned cast.old → Cast t cast.new }
{
    assign_ready(table, scopes, cast);
    assign_live(table, cast);
    dismiss_deep(table, cast);
}

// A known table of at most N records; M is 4 * N. What depends on one record alone is found once: its role first, then the chains of the invokes, the fewest
// variables that a rival binds, and the scopes of what is sent. Then comes the list.
fn open_sized<const N: usize, const M: usize>(table: KnownTable, list: &mut [u8]) -> Reply
    requires sizes { (length table.bytes.now / 16 ≤ N) × (N ≤ max_records) × (M ≡ 4 * N) }
    ensures { (t : Term) → TermOf table.entry t → Answered (listing t (length list.old)) list.old list.new result }
{
    let mut atoms = [0u16; 256];
    let mut inner = [0u16; N];
    chain_scopes(table.bytes, &mut atoms, &mut inner);
    let scopes = Chains {
        heads: &atoms,
        next: &inner,
    };
    let mut cast = [Role::Idle; N];
    assign(table, &scopes, &mut cast);
    let mut heads = [0u16; 256];
    let mut next = [0u16; N];
    chain_senders(table.bytes, &cast, &mut heads, &mut next);
    let senders = Chains {
        heads: &heads,
        next: &next,
    };
    let mut fewest = [5u8; N];
    find_fewest(table, &cast, &senders, &mut fewest);
    let mut sent = [0u16; M];
    find_scopes(table, &cast, &scopes, &mut sent);
    let survey = Survey {
        table,
        cast: &cast,
        scopes,
        senders,
        fewest: &fewest,
        sent: &sent,
    };
    write_list(&survey, list)
}

// A known table: small tables get small arrays.
fn open_known(table: KnownTable, list: &mut [u8]) -> Reply
    ensures { (t : Term) → TermOf table.entry t → Answered (listing t (length list.old)) list.old list.new result }
{
    if table.bytes.len() <= 1024 {
        return open_sized::<64, 256>(table, list);
    }
    if table.bytes.len() <= 4096 {
        return open_sized::<256, 1024>(table, list);
    }
    open_sized::<{ limits::MAX_RECORDS }, 8192>(table, list)
}

// The same of any bytes, with room for the ends of a table's terms.
fn open_with(table: &[u8], ends: &mut [u16], list: &mut [u8]) -> Reply
    requires { min (length table.now / 16) max_records + 1 < length ends.old }
    ensures { Opened table.now list.old list.new result }
{
    let checked = tables::check_ends(table, ends);
    if checked.answer != 0 {
        return checked;
    }
    open_known(KnownTable { bytes: table, ends }, list)
}

// The same with room for so many ends of its own.
fn open_within<const ROOM: usize>(table: &[u8], list: &mut [u8]) -> Reply
    requires { (min (length table.now / 16) max_records + 1 < ROOM) × (ROOM ≤ 65536) }
    ensures { Opened table.now list.old list.new result }
{
    let mut ends = [0u16; ROOM];
    open_with(table, &mut ends, list)
}

// Every open move of a table: 0, 0 and their number, with the moves in their six bytes from the list's start and every byte behind them as it was; or the
// table's refusal, or 22 with their number as place where they do not fit, and the list as it was. Reply and every byte are those of the definition, and of
// both the request's claims hold.
pub fn open(table: &[u8], list: &mut [u8]) -> Reply
    ensures { Opened table.now list.old list.new result × Claims table.now list.old list.new result }
{
    if table.len() <= 4096 {
        return open_within::<258>(table, list);
    }
    open_within::<{ limits::ENDS }>(table, list)
}
