// `calculate_circle_variance` of detector.rs for each kept candidate, into its record.
#![tactic(auto)]

ghost use Rattle.std.specs.Prelude.{◌≡◌, map, ◌*◌, ◌≤◌, length};
ghost use Rattle.records.specs.Records.{rows};
ghost use Rattle.records.specs.RecordsClauses.{Became, Each};
ghost use Rattle.detector_variances.specs.Variances.{variance_bits, with_variance};
ghost use Rattle.detector_variances.specs.VariancesClauses.{Small};

// The bits of a candidate's variance.
fn variance_bits(candidate: &[u32; 40]) -> u32
    requires { Small candidate.now }
    ensures { result ≡ variance_bits candidate.now }
{
    let variance = detector_variance::calculate_circle_variance(
        &candidate[records::ROW_RUNS..records::COLUMN_RUNS],
        &candidate[records::COLUMN_RUNS..records::VARIANCE],
    );
    std::num::f32_to_bits_with_nan(variance)
}

// The variance of each of the first records, into its own word.
pub fn set_variances(records: &mut [u32], count: usize)
    requires { (40 * count ≤ length records.old) × Each Small (rows count records.old) }
    ensures { Became count records.old (map with_variance (rows count records.old)) records.new }
{
    for i in 0..count {
        let bits = variance_bits(&records::front(records, count)[i]);
        records[40 * i + records::VARIANCE] = bits;
    }
}
