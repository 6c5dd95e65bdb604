// Ranges: the rules for single records (refusal 2) as ranges of the eight 16-bit fields of a record, in a row for each kind and count: a quick test that only
// ever accepts, without branches on the kind; and the first record that breaks them.
#![tactic(auto)]

ghost use Rattle.std.specs.Prelude.{◌≡◌, ℕ, ◌+◌, ◌*◌, ◌/◌, ◌<◌, true, length, slice_index};
ghost use Rattle.cows.specs.Format.{records};
ghost use Rattle.cows.specs.Tables.{first_wrong};
ghost use Rattle.records.specs.Answers.{found_of};
ghost use Rattle.ranges.specs.Ranges.{Met, Gathers, ranged};

use records::{limits, word_at};
use rows::record_right;

// How far the last value, the last datum and the last label lie above the first.
const VALUES: u16 = limits::FIRST_VARIABLE - 2;

const DATA: u16 = limits::FIRST_LABEL - 2;

const LABELS: u16 = 65535 - limits::FIRST_LABEL;

// The eight fields: kind and count, first atom, second atom, four slots, interval.
type Fields = [u16; 8];

// The rows of ranges: the lowest number of each field, and how far above it the field may lie. First the kinds without a tuple, then invoke and receive by their
// count.
static ROWS: [(Fields, Fields); 18] = [
    ([0, 0, 0, 0, 0, 0, 0, 0], [0, 0, 0, 0, 0, 0, 0, 0]),
    (
        [1, limits::FIRST_LABEL, 0, 0, 0, 0, 0, 0],
        [0, LABELS, 0, 0, 0, 0, 0, 0],
    ),
    ([4, 0, 0, 0, 0, 0, 0, 0], [0, 0, 0, 0, 0, 0, 0, 65535]),
    ([5, 0, 0, 0, 0, 0, 0, 0], [0, 0, 0, 0, 0, 0, 0, 0]),
    ([6, 0, 0, 0, 0, 0, 0, 0], [0, 0, 0, 0, 0, 0, 0, 0]),
    ([7, 0, 0, 0, 0, 0, 0, 0], [0, 0, 0, 0, 0, 0, 0, 0]),
    ([8, 1, 0, 0, 0, 0, 0, 0], [0, 65534, 0, 0, 0, 0, 0, 0]),
    ([9, 0, 0, 0, 0, 0, 0, 0], [0, 0, 0, 0, 0, 0, 0, 0]),
    ([2, 1, 1, 0, 0, 0, 0, 0], [0, DATA, DATA, 0, 0, 0, 0, 0]),
    ([3, 1, 1, 0, 0, 0, 0, 0], [0, VALUES, VALUES, 0, 0, 0, 0, 0]),
    (
        [258, 1, 1, 1, 0, 0, 0, 0],
        [0, DATA, DATA, DATA, 0, 0, 0, 0],
    ),
    (
        [259, 1, 1, 1, 0, 0, 0, 0],
        [0, VALUES, VALUES, DATA, 0, 0, 0, 0],
    ),
    (
        [514, 1, 1, 1, 1, 0, 0, 0],
        [0, DATA, DATA, DATA, DATA, 0, 0, 0],
    ),
    (
        [515, 1, 1, 1, 1, 0, 0, 0],
        [0, VALUES, VALUES, DATA, DATA, 0, 0, 0],
    ),
    (
        [770, 1, 1, 1, 1, 1, 0, 0],
        [0, DATA, DATA, DATA, DATA, DATA, 0, 0],
    ),
    (
        [771, 1, 1, 1, 1, 1, 0, 0],
        [0, VALUES, VALUES, DATA, DATA, DATA, 0, 0],
    ),
    (
        [1026, 1, 1, 1, 1, 1, 1, 0],
        [0, DATA, DATA, DATA, DATA, DATA, DATA, 0],
    ),
    (
        [1027, 1, 1, 1, 1, 1, 1, 0],
        [0, VALUES, VALUES, DATA, DATA, DATA, DATA, 0],
    ),
];

// Where the rows of a kind start, and how far on that of a count stands. A kind or a count that cannot be is sent to some row, whose first field it does not meet.
static ROW: [u8; 16] = [0, 1, 8, 9, 2, 3, 4, 5, 6, 7, 0, 0, 0, 0, 0, 0];

static ROWS_ON: [u8; 8] = [0, 2, 4, 6, 8, 0, 0, 0];

// How far w lies outside the range; 0 inside. Counted from its lowest number, a number below it lies far above it.
fn beyond(w: u16, low: u16, span: u16) -> u16
    ensures { result ≡ 0 → Met w low span }
{
    w.wrapping_sub(low).saturating_sub(span)
}

// Gathers, in eight numbers, how far the fields of the record at byte k lie outside the ranges of a row: eight at once, and no branch.
fn gather(s: &[u8], k: usize, low: &Fields, span: &Fields, out: &mut Fields)
    requires { k + 15 < length s.now }
    ensures { Gathers s.now k low.now span.now out.old out.new 8 }
{
    for j in 0..8 {
        out[j] = out[j] | beyond(word_at(s, k + 2 * j), low[j], span[j]);
    }
}

// The fields of every record are within the ranges of the row of its kind and count.
pub fn fields_right(s: &[u8]) -> bool
    ensures { result ≡ true → (i : ℕ) → i < length s.now / 16 → ranged s.now (16 * i) ≡ true }
{
    let mut out = [0u16; 8];
    for i in 0..s.len() / 16 {
        let kind = usize::from(s[16 * i] % 16);
        let count = usize::from(s[16 * i + 1] % 8);
        let (low, span) = &ROWS[usize::from(ROW[kind]) + usize::from(ROWS_ON[count])];
        gather(s, 16 * i, low, span, &mut out);
    }
    out.iter().all(|x| *x == 0)
}

// The first record that is not right, by a search.
pub fn find_wrong(s: &[u8]) -> Option<usize>
    ensures { result ≡ found_of (first_wrong 0 (records s.now)) }
{
    for i in 0..s.len() / 16 {
        if !record_right(s, i) {
            return Some(i);
        }
    }
    None
}
