// Assigning: the role of each record (roles), in one walk over the ready records and one over the live ones.
#![tactic(auto)]

ghost use Rattle.std.specs.Prelude.{◌≡◌, cond, ℕ, ◌/◌, ◌<◌, ◌≤◌, max, length};
ghost use Rattle.cows.specs.Terms.{Term, size};
ghost use Rattle.cows.specs.Kinds.{root};
ghost use Rattle.cows.specs.Places.{sub};
ghost use Rattle.records.specs.Holds.{Holds};
ghost use Rattle.ways.specs.TermOf.{TermOf};
ghost use Rattle.roles.specs.declared.Role.TheVariants.{Holder};
ghost use Rattle.roles.specs.Roles.{is_role, role_at, Unassigned, role_if, unheld, ready_role, live_role, role_of};
ghost use Rattle.chains.specs.Chains.{ByAtom};
ghost use Rattle.assigning.specs.Assigning.{noted, Notable};

use chains::Chains;
use holding::next_ready;
use records::{closed, kinds, limits, word_at};
use roles::Role;
use ways::{KnownTable, live_kind};

// Notes what the ready record at place i says.
fn note(s: &[u8], scopes: &Chains, i: usize, cast: &mut [Role])
    requires { Notable s.now scopes.now.heads.now scopes.now.next.now cast.old i }
    ensures { (t : Term) → Holds s.now t → cast.new ≡ noted t i (root (sub t i)) cast.old }
{
    let kind = s[16 * i];
    if kind == kinds::KILL {
        cast[scopes.behind(s, word_at(s, 16 * i + 2)) - 1] = Role::Holder;
        return;
    }
    if kind != kinds::RECEIVE {
        return;
    }
    cast[i] = Role::Rival;
}

// One walk over the ready records: each delimitation of the label of a kill holds back, each receive is a rival. `cast` has no roles yet.
pub fn assign_ready(table: KnownTable, scopes: &Chains, cast: &mut [Role])
    requires { ByAtom table.bytes.now scopes.now.heads.now scopes.now.next.now × (length table.bytes.now / 16 ≤ length cast.old) }
    ensures { (t : Term) → TermOf table.entry t → Unassigned cast.old → (n : ℕ) → n < size t → role_at cast.new n ≡ ready_role t n }
{
    let n = table.bytes.len() / 16;
    let mut i = 0;
    // A walk by the ends: where it goes on depends on the record.
    while i < n {
        note(table.bytes, scopes, i, cast);
        i = next_ready(table, i);
    }
}

// The role, or none.
fn role_if(test: bool, role: Role) -> Role
    ensures { result ≡ role_if test role }
{
    if test { role } else { Role::Idle }
}

// The role of the live record at place i, which nothing holds back if it is free; `old` is the one it had after the ready records.
fn role_of(table: KnownTable, i: usize, free: bool, old: Role) -> Role
    requires { i < length table.bytes.now / 16 }
    ensures { (t : Term) → TermOf table.entry t → free ≡ unheld t i → old ≡ ready_role t i → result ≡ live_role t i (root (sub t i)) }
{
    let kind = table.bytes[16 * i];
    if kind == kinds::RECEIVE {
        if free {
            return Role::Receiver;
        }
        return Role::Rival;
    }
    if kind == kinds::INVOKE {
        return role_if(free & closed(table.bytes, 16 * i), Role::Sender);
    }
    if kind == kinds::DELIMITATION {
        if limits::FIRST_LABEL <= word_at(table.bytes, 16 * i + 2) {
            return old;
        }
        return role_if(0 < i, Role::Extrude);
    }
    if kind == kinds::WAIT {
        return role_if(word_at(table.bytes, 16 * i + 14) == 0, Role::Timeout);
    }
    if kind == kinds::KILL {
        return Role::Kill;
    }
    if kind == kinds::REPLICATION {
        return role_if(
            table.bytes.len() / 16 + (usize::from(table.ends[i]) - i) <= limits::MAX_RECORDS,
            Role::Unfold,
        );
    }
    Role::Idle
}

// How far a record of this role and this end holds back, where `held` is known.
fn held_past(held: usize, end: usize, role: Role) -> usize
    ensures { result ≡ cond (is_role role Holder) (max held end) held }
{
    if role == Role::Holder {
        held.max(end)
    } else {
        held
    }
}

// One walk over the live records: `held` is the furthest end of what holds back so far.
pub fn assign_live(table: KnownTable, cast: &mut [Role])
    requires { length table.bytes.now / 16 ≤ length cast.old }
    ensures { (t : Term) → TermOf table.entry t → ((n : ℕ) → n < size t → role_at cast.old n ≡ ready_role t n) → (n : ℕ) → n < size t → role_at cast.new n ≡ role_of t n }
{
    let n = table.bytes.len() / 16;
    let mut held = 0;
    let mut i = 0;
    // A walk by the ends: where it goes on depends on the record.
    while i < n {
        let old = cast[i];
        let end = usize::from(table.ends[i]);
        cast[i] = role_of(table, i, held <= i, old);
        held = held_past(held, end, old);
        if live_kind(table.bytes[16 * i]) {
            i += 1;
            continue;
        }
        i = end;
    }
}
