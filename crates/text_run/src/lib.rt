// What a run prints, as text in a lent buffer: the line of its report, and one for each kept record.
#![tactic(auto)]

ghost use Rattle.std.specs.Prelude.{◌+◌, ◌*◌, ◌≤◌, length};
ghost use Rattle.text.specs.Text.{Puts};
ghost use Rattle.text.specs.TextClauses.{HasRoom, Wrote};
ghost use Rattle.text_run.specs.RunText.{lines_of, run_text, fitting_text};

use detector::Report;
use text::Text;

// The lines of the records, in their order.
fn put_records(text: &mut Text, records: &[[u32; 40]])
    requires { HasRoom (200 * length records.now) text.old }
    ensures { Wrote (lines_of records.now) text.old text.new }
{
    for fields in records {
        text_lines::put_record(text, fields);
    }
}

// All that a run prints: the line of its report, then those of the kept records.
pub fn put_run(buf: &mut [u8], report: Report, records: &[u32]) -> usize
    requires { (80 + 200 * report.kept ≤ length buf.old) × (40 * report.kept ≤ length records.now) }
    ensures { Puts (run_text report.answer report.found report.kept report.marked records.now) 0 buf.old result buf.new }
{
    let mut text = Text::new(buf);
    text_lines::put_report(&mut text, report);
    put_records(&mut text, records::front(records, report.kept as usize));
    text.len()
}

// The same for lent buffers of any length: 80 bytes and 200 for each kept record are room enough. Where there is less, or fewer records are lent than
// kept, nothing is written, and the place is 0.
pub fn put_fitting(buf: &mut [u8], report: Report, records: &[u32]) -> usize
    ensures { Puts (fitting_text (length buf.old) report.answer report.found report.kept report.marked records.now) 0 buf.old result buf.new }
{
    let count = report.kept as usize;
    if buf.len() < 80 + 200 * count {
        return 0;
    }
    if records.len() < 40 * count {
        return 0;
    }
    put_run(buf, report, records)
}
