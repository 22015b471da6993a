// A lent buffer of words as records of 40 words: record i is words 40 * i to 40 * i + 39.
#![tactic(auto)]

ghost use Rattle.std.specs.Prelude.{◌≡◌, ◌+◌, ◌*◌, ◌≤◌, ◌++◌, length, take, drop, replicate};
ghost use Rattle.records.specs.Records.{capacity_of, rows};
ghost use Rattle.records.specs.RecordsClauses.{get, put};

// The places of a record's words, which C hosts read: eleven runs from ROW_RUNS on, eleven from COLUMN_RUNS on, four corners, x before y, from CORNERS on.
pub const CENTER_X: usize = 0;

pub const CENTER_Y: usize = 1;

pub const RADIUS: usize = 2;

pub const ROW_RUNS: usize = 3;

pub const COLUMN_RUNS: usize = 14;

pub const VARIANCE: usize = 25;

pub const OUTCOME: usize = 26;

pub const SCALE: usize = 27;

pub const ROTATION: usize = 28;

pub const LAST_CENTER_X: usize = 29;

pub const LAST_CENTER_Y: usize = 30;

pub const CORNERS: usize = 31;

pub const CLASS: usize = 39;

// How many records a buffer of n words may hold.
pub fn capacity_of(n: usize) -> usize
    ensures { result ≡ capacity_of n }
{
    (n / 40).min(1024)
}

// The first `count` records.
pub fn front(records: &[u32], count: usize) -> &[[u32; 40]]
    requires { 40 * count ≤ length records.now }
    ensures { (result.now ≡ rows count records.now) × (length result.now ≡ count) }
{
    records[..40 * count].as_chunks::<40>().0
}

// Record i. A for, here and in `store`: `copy_from_slice` may come to `memcpy` or `memmove`, which a host of an archive need not have.
pub fn load(records: &[u32], i: usize) -> [u32; 40]
    requires { 40 * i + 40 ≤ length records.now }
    ensures { result ≡ get records.now i }
{
    let mut fields = [0u32; 40];
    for k in 0..40 {
        fields[k] = records[40 * i + k];
    }
    fields
}

// Record i is replaced.
pub fn store(records: &mut [u32], i: usize, fields: &[u32; 40])
    requires { (40 * i + 40 ≤ length records.old) × (length fields.now ≡ 40) }
    ensures { records.new ≡ put records.old i fields.now }
{
    for k in 0..40 {
        records[40 * i + k] = fields[k];
    }
}

// Record i, over record j.
pub fn copy(records: &mut [u32], i: usize, j: usize)
    requires { (40 * i + 40 ≤ length records.old) × (40 * j + 40 ≤ length records.old) }
    ensures { records.new ≡ put records.old j (get records.old i) }
{
    if i == j {
        return;
    }
    let fields = load(records, i);
    store(records, j, &fields);
}

// Records i and j change places. `as_chunks_mut` would give `swap` records to exchange, but no contract says what the slice is then.
pub fn swap(records: &mut [u32], i: usize, j: usize)
    requires { (40 * i + 40 ≤ length records.old) × (40 * j + 40 ≤ length records.old) }
    ensures { records.new ≡ put (put records.old i (get records.old j)) j (get records.old i) }
{
    let first = load(records, i);
    let second = load(records, j);
    store(records, i, &second);
    store(records, j, &first);
}

// Zeros in the place of so many words.
pub fn clear(records: &mut [u32], from: usize, count: usize)
    requires { from + count ≤ length records.old }
    ensures { records.new ≡ take from records.old ++ replicate count 0 ++ drop (from + count) records.old }
{
    records[from..from + count].fill(0);
}
