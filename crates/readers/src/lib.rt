// The table reader: the lent records of a table together with the place it has reached. It reads one whole term from there, through the service reader, and
// stands behind it. A method of the struct takes it apart and leaves the work to a function on the slice and the place; `read_on` has plain parameters.
#![tactic(auto)]

mod services;

ghost use Rattle.std.specs.Prelude.{◌≡◌, Ok, Err, IfOk, IfErr};
ghost use Rattle.readers.specs.Reads.{Readable};
ghost use Rattle.readers.specs.Terms.{ReadTo};

#[derive(Clone, Copy)]
pub struct Reader<'a> {
    pub table: &'a [u8],
    pub at: usize,
}

// The term at a place: the place behind it, or the first child of a choice in it that is no guard.
fn term_at(table: &[u8], ends: &[u16], at: usize) -> Result<usize, usize>
    requires { Readable table.now ends.now at }
    ensures { ReadTo table.now ends.now at result }
{
    let end = usize::from(ends[at]);
    services::service(table, ends, at, end)?;
    Ok(end)
}

impl<'a> Reader<'a> {
    // A reader that stands at a place.
    pub fn stand(table: &'a [u8], at: usize) -> Reader<'a>
        ensures { (result.table ≡ table.entry) × (result.at ≡ at) }
    {
        Reader { table, at }
    }

    // The same table, read on over one term, or the first child of a choice in it that is no guard.
    pub fn read_term(self, ends: &[u16]) -> Result<Reader<'a>, usize>
        requires { Readable self.table.now ends.now self.at }
        ensures ok { IfOk result (λ r. (r.table ≡ self.entry.table) × ReadTo self.entry.table.now ends.now self.entry.at (Ok r.at)) }
        ensures err { IfErr result (λ p. ReadTo self.entry.table.now ends.now self.entry.at (Err p)) }
    {
        Ok(Reader {
            table: self.table,
            at: term_at(self.table, ends, self.at)?,
        })
    }

    // The place reached.
    pub fn place(self) -> usize
        ensures { result ≡ self.entry.at }
    {
        self.at
    }
}

// From a slice and a place to a reader and back: where it stands behind the term there, or the first child of a choice in it that is no guard.
pub fn read_on(table: &[u8], ends: &[u16], at: usize) -> Result<usize, usize>
    requires { Readable table.now ends.now at }
    ensures { ReadTo table.now ends.now at result }
{
    let behind = Reader::stand(table, at).read_term(ends)?;
    Ok(behind.place())
}
