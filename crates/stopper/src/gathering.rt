// Gathering: whether every listed kill is live, where its scope stands, and how many records they take away.
ghost use Rattle.std.specs.Prelude.{◌≤◌, length};
ghost use Rattle.cows.specs.Terms.{Term};
ghost use Rattle.joint.specs.Joint.{max_kills};
ghost use Rattle.ways.specs.TermOf.{TermOf};
ghost use Rattle.stopper.specs.Gathering.{Gathers};

use ways::KnownTable;

// How many records the kills of the list take away, each on the table as it is, or the first listed place at which no live kill stands. Each kill is judged as a
// single one; the place of its scope goes to the same index of `scopes`.
pub fn gather(table: KnownTable, kills: &[u16], scopes: &mut [u16]) -> Result<usize, usize>
    requires { (length kills.now ≤ max_kills) × (length kills.now ≤ length scopes.old) }
    ensures { (t : Term) → TermOf table.entry t → Gathers t kills.now scopes.new result }
{
    let mut gone = 0;
    for i in 0..kills.len() {
        let a = usize::from(kills[i]);
        let Ok(plan) = kill::judge(table, a) else {
            return Err(a);
        };
        scopes[i] = plan.from as u16;
        gone += table.bytes.len() / 16 - plan.records;
    }
    Ok(gone)
}
