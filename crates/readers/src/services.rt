// The service reader and the guard reader: refusal 5, the first child of a choice that is no guard, among the records of a table that holds a term. A service is
// read through its guards, and a guard through the service behind its prefix. Each calls the other with fewer records left.
ghost use Rattle.std.specs.Prelude.{◌≡◌, get_or};
ghost use Rattle.readers.specs.Reads.{Readable, ReadService, ReadGuard};

use records::kinds;

// The service at a place, which ends at `end`: its records in their order, the choices among them by the guard reader, each whole. The first child of a choice
// in it that is no guard is its fault.
#[cycle(guard_read_guard_service)]
pub fn service(s: &[u8], ends: &[u16], at: usize, end: usize) -> Result<(), usize>
    requires { Readable s.now ends.now at × (end ≡ get_or ends.now at 0) }
    ensures { ReadService s.now at end result }
{
    let mut i = at;
    // A walk by the ends: where it goes on depends on the record.
    while i < end {
        if s[16 * i] == kinds::CHOICE {
            read_guard(s, ends, i)?;
            i = usize::from(ends[i]);
        } else {
            i += 1;
        }
    }
    Ok(())
}

// The guard at a place, handed on to the guard reader (docs/DECISIONS.md, The moves on a table).
#[cycle(guard_read_guard_service)]
fn read_guard(s: &[u8], ends: &[u16], at: usize) -> Result<(), usize>
    requires { Readable s.now ends.now at }
    ensures { ReadGuard s.now at (get_or ends.now at 0) result }
{
    guard(s, ends, at)
}

// The guard at a place, with the same answers: a choice of two guards, a nil, or a prefix with a service behind it. What is none of these is a fault. The second
// guard of a choice is read in the same call.
#[cycle(guard_read_guard_service)]
fn guard(s: &[u8], ends: &[u16], at: usize) -> Result<(), usize>
    requires { Readable s.now ends.now at }
    ensures { ReadGuard s.now at (get_or ends.now at 0) result }
{
    let mut g = at;
    let mut k = s[16 * at];
    // A walk over choices: the second guard of each is the next.
    while k == kinds::CHOICE {
        read_guard(s, ends, g + 1)?;
        g = usize::from(ends[g + 1]);
        k = s[16 * g];
    }
    if k == kinds::NIL {
        return Ok(());
    }
    if (k == kinds::RECEIVE) | (k == kinds::WAIT) {
        return service(s, ends, g + 1, usize::from(ends[g]));
    }
    Err(g)
}
