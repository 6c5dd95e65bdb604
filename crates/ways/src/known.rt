// A known table: it is well formed, and the ends of its terms are at hand.
ghost use Rattle.ways.specs.Known.{WellFormed};

#[derive(Clone, Copy)]
pub struct KnownTable<'a> {
    pub bytes: &'a [u8],
    pub ends: &'a [u16],
    pub ghost known: { WellFormed bytes.now ends.now },
}
