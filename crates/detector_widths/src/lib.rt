// `validate_bullseye_widths` of detector.rs: whether eleven runs are as wide as a bull's-eye's. In whole numbers, and
// equal to the source's f32 test (`same_widths`, specs/SameWidthsLaws.antt).
#![tactic(auto)]

ghost use Rattle.std.specs.Prelude.{◌≡◌, ◌^◌, ◌<◌, ◌≤◌, sum};
ghost use Rattle.detector_widths.specs.Widths.{passes, valid_widths};
ghost use Rattle.detector_widths.specs.WidthsClauses.{runs_pass};

// Whether a run passes among runs of this total, in 64 bits: sums and multiples of runs can pass 2^32.
fn passes(total: u64, run: u32) -> bool
    requires { total < 2 ^ 35 }
    ensures { result ≡ passes total run }
{
    let run = u64::from(run);
    (total < 10 * run) & (10 * run < 3 * total)
}

// The sum of some runs.
fn total<const N: usize>(runs: &[u32; N]) -> u64
    requires { N ≤ 6 }
    ensures { (result ≡ sum runs.now) × (result < 2 ^ 35) }
{
    let mut total = 0;
    for run in runs {
        total += u64::from(*run);
    }
    total
}

// Whether each of some runs passes among runs of this total. No test ends it early: `&` makes no branch for a run.
fn runs_pass<const N: usize>(total: u64, runs: &[u32; N]) -> bool
    requires { total < 2 ^ 35 }
    ensures { result ≡ runs_pass total runs.now }
{
    runs.iter()
        .fold(true, |good, run| good & passes(total, *run))
}

// Whether the even runs pass, and the odd ones but run 5, which is free.
pub fn validate_bullseye_widths(buckets: &[u32; 11]) -> bool
    ensures { result ≡ valid_widths buckets.now }
{
    let [r0, r1, r2, r3, r4, _, r6, r7, r8, r9, r10] = *buckets;
    let even = [r0, r2, r4, r6, r8, r10];
    let odd = [r1, r3, r7, r9];
    runs_pass(total(&even), &even) && runs_pass(total(&odd), &odd)
}
