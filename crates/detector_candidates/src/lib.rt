// `find_concentric_circles` of detector.rs: the candidates of an image, into the record buffer that stands for the source's vector of circles.
#![tactic(auto)]

ghost use Rattle.std.specs.Prelude.{◌<◌};
ghost use Rattle.records.specs.Records.{rows};
ghost use Rattle.detector_candidates.specs.Candidates.{after, concentric_circles};
ghost use Rattle.detector_candidates.specs.CandidatesClauses.{row_from, Room, Stored, Listed};
ghost use Rattle.bit_matrix.specs.ImageClauses.{Kept};

use bit_matrix::BitMatrix;

// A candidate goes behind the others. One more than the capacity is counted and not stored. A struct of records, capacity and count is no plainer: what
// it leaves in the lent buffer is not known after a loop, so the sweep would need a method with the clauses of `find_concentric_circles` again.
fn append(records: &mut [u32], capacity: usize, count: usize, candidate: Option<[u32; 40]>) -> usize
    requires { Room capacity records.old count }
    ensures { Stored capacity records.old (after (rows count records.old) candidate) result records.new }
{
    let Some(candidate) = candidate else {
        return count;
    };
    if count < capacity {
        records::store(records, count, &candidate);
    }
    count + 1
}

// The candidates of a row, behind the `found` ones that the buffer has. One more than the capacity ends it.
fn sweep_row(
    image: &mut BitMatrix,
    records: &mut [u32],
    capacity: usize,
    row: u32,
    found: usize,
) -> usize
    requires { (row < image.old.shape.height) × Room capacity records.old found }
    ensures kept { Kept image.old image.new }
    ensures listed { Listed (row_from image.old.shape capacity image.old.shape.width row 6 (rows found records.old)) capacity
        image.old.words.now image.old.marks.now records.old result image.new.marks.now records.new }
{
    let mut count = found;
    let mut next = Some(6);
    while let Some(column) = next {
        let s = detector_candidate::search_from(image, row, column);
        count = append(records, capacity, count, s.candidate);
        if count > capacity {
            return count;
        }
        next = s.next;
    }
    count
}

// The candidates of an image, of rows 6, 8 and so on. One more than the capacity ends the sweep.
pub fn find_concentric_circles(image: &mut BitMatrix, records: &mut [u32], capacity: usize) -> usize
    requires { Room capacity records.old 0 }
    ensures kept { Kept image.old image.new }
    ensures listed { Listed (concentric_circles image.old.shape capacity) capacity
        image.old.words.now image.old.marks.now records.old result image.new.marks.now records.new }
{
    let mut found = 0;
    for row in (6..image.shape.height - 6).step_by(2) {
        found = sweep_row(image, records, capacity, row, found);
        if found > capacity {
            return found;
        }
    }
    found
}
