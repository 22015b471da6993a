// The candidates of a sweep whose centres lie within the deviation, ranked by variance, as `detect` of detector.rs has
// them. The record buffer stands for its `Vec<Circle>`.
#![tactic(auto)]

ghost use Rattle.std.specs.Prelude.{◌≡◌, ◌*◌, ◌^◌, ◌≤◌, ◌<◌, length, sum, fold, slice_index};
ghost use Rattle.records.specs.Records.{rows};
ghost use Rattle.records.specs.RecordsClauses.{Each};
ghost use Rattle.detector_variances.specs.VariancesClauses.{Small};
ghost use Rattle.detector_kept.specs.Spread.{fields_at, with_square, axis, spread};
ghost use Rattle.detector_kept.specs.Retain.{within, near};
ghost use Rattle.detector_kept.specs.KeptClauses.{Retained, Candidates, KeptAndRanked};
ghost use Rattle.std.specs.Float.Ieee as Ieee;

// How far one coordinate of the centres goes, and about which mean: both truncated.
#[derive(Clone, Copy)]
pub struct Axis {
    pub dev: u32,
    pub mean: u32,
}

// The same for both coordinates.
#[derive(Clone, Copy)]
pub struct Spread {
    pub x: Axis,
    pub y: Axis,
}

impl Axis {
    // x and the mean are at most dev apart.
    fn is_within(self, x: u32) -> bool
        ensures { result ≡ within self.dev self.mean x }
    {
        x.abs_diff(self.mean) <= self.dev
    }
}

impl Spread {
    // Both coordinates of the candidate's centre are near the mean.
    fn is_near(self, candidate: &[u32; 40]) -> bool
        ensures { result ≡ near self candidate.now }
    {
        let near_x = self.x.is_within(candidate[records::CENTER_X]);
        let near_y = self.y.is_within(candidate[records::CENTER_Y]);
        near_x & near_y
    }
}

// The sum of a coordinate of the centre over the candidates: `field` is its place in a record.
fn total_of(candidates: &[[u32; 40]], field: usize) -> u32
    requires { (field < 40) × (sum (fields_at field candidates.now) < 2 ^ 32) }
    ensures { result ≡ sum (fields_at field candidates.now) }
{
    candidates.iter().map(|record| record[field]).sum()
}

// The squares of the distances from the mean, added in the candidates' order.
#[tactic(auto, unfolding(crate::specs::Spread::with_square))]
fn squares_of(candidates: &[[u32; 40]], field: usize, mean: f64) -> f64
    requires { field < 40 }
    ensures { result ≡ fold (λ total r. with_square mean total (slice_index r field)) (Ieee.of_bits Ieee.binary64 0) candidates.now }
{
    candidates.iter().fold(0.0, |sum, record| {
        let off = record[field] as f64 - mean;
        sum + off * off
    })
}

// The mean and the deviation of one coordinate.
fn axis_of(candidates: &[[u32; 40]], field: usize) -> Axis
    requires { (length candidates.now ≤ 1024) × Each Small candidates.now × (field < 40) }
    ensures { result ≡ axis (fields_at field candidates.now) }
{
    let n = (candidates.len() as u32) as f64;
    let mean = (total_of(candidates, field) as f64) / n;
    let dev = ieee_sqrt::sqrt_f64(squares_of(candidates, field, mean) / n);
    Axis {
        dev: std::num::saturating_f64_to_u32(dev),
        mean: std::num::saturating_f64_to_u32(mean),
    }
}

// `calculate_center_point_std_dev` of detector.rs.
pub fn calculate_center_point_std_dev(records: &[u32], found: usize) -> Spread
    requires { Candidates found records.now }
    ensures { result ≡ spread (rows found records.now) }
{
    let candidates = records::front(records, found);
    Spread {
        x: axis_of(candidates, records::CENTER_X),
        y: axis_of(candidates, records::CENTER_Y),
    }
}

// `detect`'s retain: the near records move to the front, in their order. Their number is returned.
fn retain_near(records: &mut [u32], found: usize, spread: Spread) -> usize
    requires { 40 * found ≤ length records.old }
    ensures { Retained found spread records.old result records.new }
{
    let mut kept = 0;
    for i in 0..found {
        let candidates = records::front(records, found);
        if spread.is_near(&candidates[i]) {
            records::copy(records, i, kept);
            kept += 1;
        }
    }
    kept
}

// What `detect` of detector.rs does with the sweep's candidates: those within the deviation are kept, with their
// variance, and ranked by it. The other records become zeros, up to the capacity. The number kept is returned. C hosts
// lend one buffer of words, with room for more: so the number of records goes beside it.
pub fn keep_and_rank(records: &mut [u32], found: usize, capacity: usize) -> usize
    requires { Candidates found records.old × (found ≤ capacity) × (40 * capacity ≤ length records.old) }
    ensures { KeptAndRanked found capacity records.old result records.new }
{
    let spread = calculate_center_point_std_dev(records, found);
    let kept = retain_near(records, found, spread);
    detector_variances::set_variances(records, kept);
    detector_rank::rank_records(records, kept);
    records::clear(records, 40 * kept, 40 * (capacity - kept));
    kept
}
