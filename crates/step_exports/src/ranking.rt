// The steps that keep and rank the candidates.
ghost use Rattle.std.specs.Prelude.{◌≡◌, ◌*◌, ◌≤◌, length};
ghost use Rattle.records.specs.Records.{capacity_of, rows};
ghost use Rattle.detector_kept.specs.Spread.{spread};
ghost use Rattle.detector_kept.specs.KeptClauses.{KeptAndRanked};
ghost use Rattle.step_exports.specs.Steps.{Guarded, SmallTo, refused_answer, spread_words};

use crate::guards::{REFUSED, are_candidates};

// Deviation and mean of the centres, each x then y.
#[unsafe(no_mangle)]
pub extern "C" fn step_calculate_center_point_std_dev(
    records: &[u32],
    found: u32,
    out: &mut [u32; 4],
) -> u32
    ensures { Guarded
        ((found ≤ capacity_of (length records.now)) × SmallTo (40 * found) records.now)
        ((result ≡ 0) × (out.new ≡ spread_words (spread (rows found records.now))))
        ((result ≡ refused_answer) × (out.new ≡ out.old)) }
{
    if !are_candidates(records, found) {
        return REFUSED;
    }
    let spread = detector_kept::calculate_center_point_std_dev(records, found as usize);
    *out = [spread.x.dev, spread.y.dev, spread.x.mean, spread.y.mean];
    0
}

// How many candidates are kept; the records are left as the step leaves them.
#[unsafe(no_mangle)]
pub extern "C" fn step_keep_and_rank(records: &mut [u32], found: u32) -> usize
    ensures { Guarded
        ((found ≤ capacity_of (length records.old)) × SmallTo (40 * found) records.old)
        (KeptAndRanked found (capacity_of (length records.old)) records.old result records.new)
        ((result ≡ refused_answer) × (records.new ≡ records.old)) }
{
    if !are_candidates(records, found) {
        return REFUSED as usize;
    }
    let capacity = records::capacity_of(records.len());
    detector_kept::keep_and_rank(records, found as usize, capacity)
}
