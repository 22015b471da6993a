// What the Rust host calls. A slice crosses as its pointer and its length, a report as a C struct of four u32, an option as a u32: 0 is off, any other on.
#![tactic(auto)]

ghost use Rattle.std.specs.Prelude.{MatchResult, ◌≡◌, length};
ghost use Rattle.crop.specs.Crop.{refusal, Unpacks};
ghost use Rattle.text.specs.Text.{Puts};
ghost use Rattle.text_run.specs.RunText.{fitting_text};
ghost use Rattle.detector_cells.specs.Cells.{cells_run};
ghost use Rattle.cells.specs.Entries.{words_cells, filed_cells, file_cells};
ghost use Rattle.detector.specs.Detector.{run, words_run, filed, file_run};
ghost use Rattle.tunnel.specs.Options.{is_on};

use detector::Report;

// The number that an entry answers: 0, or that of what went wrong.
fn answer<T: Drop, E: Into<u32>>(outcome: Result<T, E>) -> u32
    ensures { MatchResult outcome (λ done. result ≡ 0) (λ e. E.converts e result) }
{
    match outcome {
        Ok(_) => 0,
        Err(e) => e.into(),
    }
}

// The first of the numbers 1 to 5 that names what is wrong with a crop file, or 0.
#[unsafe(no_mangle)]
pub extern "C" fn maxicode_check(file: &[u8]) -> u32
    ensures { result ≡ refusal file.now }
{
    answer(crop::check_file(file))
}

// The words of a crop file into a lent buffer, which is written only when the answer is 0.
#[unsafe(no_mangle)]
pub extern "C" fn maxicode_unpack(file: &[u8], words: &mut [u64]) -> u32
    ensures { Unpacks file.now words.old result words.new }
{
    answer(crop::unpack(file, words))
}

// The search of an image in words, with the ellipse check on or off.
#[unsafe(no_mangle)]
pub extern "C" fn maxicode_search_words(
    words: &[u64],
    width: u32,
    height: u32,
    records: &mut [u32],
    marks: &mut [u64],
    ellipse: u32,
) -> Report
    ensures { run result records.new marks.new
        ≡ words_run words.now width height records.old marks.old (is_on ellipse) }
{
    detector::search_words(words, width, height, records, marks, ellipse != 0)
}

// The search of a crop file, with words to unpack it into and the ellipse check on or off.
#[unsafe(no_mangle)]
pub extern "C" fn maxicode_search_file(
    file: &[u8],
    words: &mut [u64],
    records: &mut [u32],
    marks: &mut [u64],
    ellipse: u32,
) -> Report
    ensures { filed words.new (run result records.new marks.new)
        ≡ file_run file.now words.old records.old marks.old (is_on ellipse) }
{
    detector::search_file(file, words, records, marks, ellipse != 0)
}

// The cells of an image in words: 33 words, column c of a row at bit c. They are written only when the answer is 0.
#[unsafe(no_mangle)]
pub extern "C" fn maxicode_cells_words(
    words: &[u64],
    width: u32,
    height: u32,
    cells: &mut [u32],
) -> u32
    ensures { cells_run result cells.new ≡ words_cells words.now width height cells.old }
{
    answer(cells::cells_words(words, width, height, cells))
}

// The cells of a crop file, with words to unpack it into, which are written with answer 10 too.
#[unsafe(no_mangle)]
pub extern "C" fn maxicode_cells_file(file: &[u8], words: &mut [u64], cells: &mut [u32]) -> u32
    ensures { filed_cells words.new (cells_run result cells.new)
        ≡ file_cells file.now words.old cells.old }
{
    answer(cells::cells_file(file, words, cells))
}

// The lines of a run as text in a lent buffer, and how long they are. A buffer of less than 80 + 200 * kept bytes, or fewer records lent than kept: nothing
// is written, and the length is 0.
#[unsafe(no_mangle)]
pub extern "C" fn maxicode_lines(
    answer: u32,
    found: u32,
    kept: u32,
    marked: u32,
    records: &[u32],
    text: &mut [u8],
) -> usize
    ensures { Puts (fitting_text (length text.old) answer found kept marked records.now) 0 text.old result
        text.new }
{
    let report = Report {
        answer,
        found,
        kept,
        marked,
    };
    text_run::put_fitting(text, report, records)
}
