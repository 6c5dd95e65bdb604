// Copying: bytes, 16-bit numbers, whole terms, and nil in the place of a term. Places are bytes.
ghost use Rattle.std.specs.Prelude.{◌≡◌, ◌+◌, ◌≤◌, ◌<◌, length, take, drop};
ghost use Rattle.cows.specs.Terms.{nil};
ghost use Rattle.cows.specs.Kinds.{basic};
ghost use Rattle.cows.specs.Format.{bytes2, record16};
ghost use Rattle.records.specs.Rewrites.{put, Passes, Rewritable, Rewrites, unchanged, gone};

// Where reading and writing go on.
#[derive(Clone, Copy)]
pub struct Places(pub usize, pub usize);

// Copies `len` bytes of src from byte `from` on into dst from byte `to` on. A loop, which is made memcpy: `copy_from_slice` between slices of any length is made
// memmove, a name that the archive for C would need from outside.
pub fn copy(src: &[u8], from: usize, len: usize, dst: &mut [u8], to: usize)
    requires { (from + len ≤ length src.now) × (to + len ≤ length dst.old) }
    ensures { dst.new ≡ put dst.old to (take len (drop from src.now)) }
{
    for i in 0..len {
        dst[to + i] = src[from + i];
    }
}

// Copies the record at byte `from` of src to byte `to` of dst. It is read whole before it is written, and so moved at once.
pub fn copy_record(src: &[u8], from: usize, dst: &mut [u8], to: usize)
    requires { (from + 16 ≤ length src.now) × (to + 16 ≤ length dst.old) }
    ensures { dst.new ≡ put dst.old to (take 16 (drop from src.now)) }
{
    let mut record = [0u8; 16];
    record.copy_from_slice(&src[from..from + 16]);
    dst[to..to + 16].copy_from_slice(&record);
}

// Writes the 16-bit number w at byte `to`.
pub fn put_word(w: u16, dst: &mut [u8], to: usize)
    requires { to + 1 < length dst.old }
    ensures { dst.new ≡ put dst.old to (bytes2 w) }
{
    dst[to..to + 2].copy_from_slice(&w.to_le_bytes());
}

// Writes the record of a nil at byte `to`.
pub fn put_nil(dst: &mut [u8], to: usize)
    requires { to + 15 < length dst.old }
    ensures { dst.new ≡ put dst.old to (record16 (basic nil)) }
{
    dst[to..to + 16].fill(0);
}

// Copies the term at byte `at`, which ends at byte `end`.
pub fn copy_term(src: &[u8], at: usize, end: usize, dst: &mut [u8], to: usize) -> Places
    requires rewritable { Rewritable unchanged src.now at dst.old to }
    requires passes { Passes src.now at end }
    ensures { Rewrites unchanged src.now at dst.old to dst.new result.0 result.1 }
{
    let len = end - at;
    copy(src, at, len, dst, to);
    Places(end, to + len)
}

// Writes nil for the term at byte `at`, which ends at byte `end`.
pub fn nil_at(src: &[u8], at: usize, end: usize, dst: &mut [u8], to: usize) -> Places
    requires rewritable { Rewritable gone src.now at dst.old to }
    requires passes { Passes src.now at end }
    ensures { Rewrites gone src.now at dst.old to dst.new result.0 result.1 }
{
    put_nil(dst, to);
    Places(end, to + 16)
}
