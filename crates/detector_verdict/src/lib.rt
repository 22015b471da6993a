// What `detect` of detector.rs comes to after the sweep: the answer and the counts, and the kept candidates, ranked, in the record buffer.
#![tactic(auto)]

ghost use Rattle.std.specs.Prelude.{List, ◌^◌, ◌<◌, ◌≡◌};
ghost use Rattle.records.specs.Records.{Record};
ghost use Rattle.detector_verdict.specs.Verdict.{number_of, numbers_of};
ghost use Rattle.detector_verdict.specs.VerdictClauses.{Judgeable, Holds, Judged};

// What a search answers: some candidates are kept, or why none is. By the numbers that hosts read.
#[derive(Clone, Copy, PartialEq, Eq)]
pub enum Answer {
    Kept = 0,
    TooMany = 7,
    NoneFound = 8,
    NoneKept = 9,
}

impl From<Answer> for u32 {
    ghost from_gives = { λ answer n. n ≡ number_of answer };

    fn from(answer: Answer) -> u32 {
        answer as u32
    }
}

// What a search reports: its answer, the sweep's candidates, and those kept.
#[derive(Clone, Copy)]
pub struct Counts {
    pub answer: Answer,
    pub found: u32,
    pub kept: u32,
}

fn counted(answer: Answer, found: usize, kept: usize) -> Counts
    requires { (found < 2 ^ 32) × (kept < 2 ^ 32) }
    ensures { result ≡ record { answer = answer; found = found; kept = kept } }
{
    Counts {
        answer,
        found: found as u32,
        kept: kept as u32,
    }
}

// The verdict on the sweep's candidates, of which the buffer holds those up to the capacity. Records from the kept ones to the capacity become zeros.
// C hosts lend one buffer of words: so the numbers go beside it.
pub fn verdict(records: &mut [u32], found: usize, capacity: usize) -> Counts
    requires { Judgeable capacity found records.old }
    ensures { (candidates : List Record) → Holds capacity found records.old candidates
        → Judged capacity candidates records.old (numbers_of result) records.new }
{
    if found > capacity {
        records::clear(records, 0, 40 * capacity);
        return counted(Answer::TooMany, found, 0);
    }
    let kept = detector_kept::keep_and_rank(records, found, capacity);
    if found == 0 {
        return counted(Answer::NoneFound, found, 0);
    }
    if kept == 0 {
        return counted(Answer::NoneKept, found, 0);
    }
    counted(Answer::Kept, found, kept)
}
