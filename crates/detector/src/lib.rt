// The entries of the finder: an image, in words or in a crop file, is refused with a number, or searched, with the ellipse check or without.
#![tactic(auto)]

ghost use Rattle.std.specs.Prelude.{◌≡◌, ◌≤◌, length};
ghost use Rattle.bit_matrix.specs.ShapeClauses.{Image};
ghost use Rattle.crop_sizes.specs.Refusals.{number_of};
ghost use Rattle.crop.specs.CropClauses.{Checks};
ghost use Rattle.detector_verdict.specs.Verdict.{numbers_of};
ghost use Rattle.detector.specs.Detector.{run, report_of, refused_report, accepted_run, words_run, filed, file_run};

use bit_matrix::Shape;
use crop_sizes::Refusal;
use detector_search::Setting;
use detector_verdict::Counts;

// What an entry reports: the answer, the sweep's candidates, those kept, and how many bits are marked.
#[repr(C)]
#[derive(Clone, Copy, Debug, PartialEq, Eq)]
pub struct Report {
    pub answer: u32,
    pub found: u32,
    pub kept: u32,
    pub marked: u32,
}

fn report_of(counts: Counts, marked: u32) -> Report
    ensures { result ≡ report_of (numbers_of counts) marked }
{
    Report {
        answer: u32::from(counts.answer),
        found: counts.found,
        kept: counts.kept,
        marked,
    }
}

impl From<Refusal> for Report {
    ghost from_gives = { λ refusal report. report ≡ refused_report (number_of refusal) };

    fn from(refusal: Refusal) -> Report {
        Report {
            answer: refusal.into(),
            found: 0,
            kept: 0,
            marked: 0,
        }
    }
}

// The search of an accepted image: the marks are cleared, the search sets them, and they are counted.
fn search_accepted(
    words: &[u64],
    shape: Shape,
    records: &mut [u32],
    marks: &mut [u64],
    ellipse: bool,
) -> Report
    requires { Image shape words.now marks.old × (40 ≤ length records.old) }
    ensures { run result records.new marks.new ≡ accepted_run shape words.now records.old ellipse }
{
    marks::clear(marks);
    let capacity = records::capacity_of(records.len());
    let setting = Setting {
        shape,
        capacity,
        ellipse,
    };
    let counts = detector_search::search(words, marks, records, setting);
    let marked = marks::count_marks(marks);
    report_of(counts, marked)
}

// The search of an image in words.
pub fn search_words(
    words: &[u64],
    width: u32,
    height: u32,
    records: &mut [u32],
    marks: &mut [u64],
    ellipse: bool,
) -> Report
    ensures { run result records.new marks.new
        ≡ words_run words.now width height records.old marks.old ellipse }
{
    match crop::words_refusal(words, width, height, marks.len(), records.len()) {
        Ok(shape) => search_accepted(words, shape, records, marks, ellipse),
        Err(refusal) => refusal.into(),
    }
}

// The search of a crop file that was checked, with words to unpack it into: what `search_file` and the program have in common. It is no entry.
pub fn search_checked(
    file: &[u8],
    checked: Result<Shape, Refusal>,
    words: &mut [u64],
    records: &mut [u32],
    marks: &mut [u64],
    ellipse: bool,
) -> Report
    requires { Checks file.now checked }
    ensures { filed words.new (run result records.new marks.new)
        ≡ file_run file.now words.old records.old marks.old ellipse }
{
    match crop::file_refusal(checked, words.len(), marks.len(), records.len()) {
        Ok(shape) => {
            crop_rows::unpack_rows(file, shape, words);
            search_accepted(words, shape, records, marks, ellipse)
        }
        Err(refusal) => refusal.into(),
    }
}

// The search of a crop file, with words to unpack it into.
pub fn search_file(
    file: &[u8],
    words: &mut [u64],
    records: &mut [u32],
    marks: &mut [u64],
    ellipse: bool,
) -> Report
    ensures { filed words.new (run result records.new marks.new)
        ≡ file_run file.now words.old records.old marks.old ellipse }
{
    let checked = crop::check_file(file);
    search_checked(file, checked, words, records, marks, ellipse)
}
