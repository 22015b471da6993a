// The lines of a report and of a record, as text in a lent buffer. A `Display` of a line may answer an error, and these may not (the crate text).
#![tactic(auto)]

ghost use Rattle.std.specs.Prelude.{map};
ghost use Rattle.text.specs.Text.{decimal_of, hex_of};
ghost use Rattle.text.specs.TextClauses.{HasRoom, Wrote, Grown};
ghost use Rattle.text_lines.specs.Lines.{following, parted, circle_fields, turn_fields, corner_fields, report_line, record_line};

use detector::Report;
use text::Text;

// The line of a report.
pub fn put_report(text: &mut Text, report: Report)
    requires { HasRoom 80 text.old }
    ensures { Wrote (report_line report.answer report.found report.kept report.marked) text.old text.new }
{
    text.put_named(b"answer ", report.answer);
    text.put_named(b" found ", report.found);
    text.put_named(b" kept ", report.kept);
    text.put_named(b" marked ", report.marked);
    text.put(b"\n");
}

// The centre and the radius of a record's circle.
fn put_circle(text: &mut Text, fields: &[u32; 40])
    requires { HasRoom 46 text.old }
    ensures text { Wrote (parted (map decimal_of (circle_fields fields.now))) text.old text.new }
    ensures len { Grown 46 text.old text.new }
{
    text.put_decimal(fields[records::CENTER_X]);
    text.put_named(b" ", fields[records::CENTER_Y]);
    text.put_named(b" ", fields[records::RADIUS]);
}

// The outcome of a record, its scale, its rotation in whole degrees, and its class, each after a space.
fn put_turn(text: &mut Text, fields: &[u32; 40])
    requires { HasRoom 72 text.old }
    ensures text { Wrote (following (map decimal_of (turn_fields fields.now))) text.old text.new }
    ensures len { Grown 72 text.old text.new }
{
    let rotation = fields[records::ROTATION];
    let degrees = std::num::saturating_f32_to_u32(std::num::f32_from_bits_with_nan(rotation));
    text.put_named(b" ", fields[records::OUTCOME]);
    text.put_named(b" ", fields[records::SCALE]);
    text.put_named(b" ", degrees);
    text.put_named(b" ", fields[records::CLASS]);
}

// The corners of a record, each word after a space.
fn put_corners(text: &mut Text, fields: &[u32; 40])
    requires { HasRoom 72 text.old }
    ensures text { Wrote (following (map hex_of (corner_fields fields.now))) text.old text.new }
    ensures len { Grown 72 text.old text.new }
{
    for corner in &fields[records::CORNERS..records::CLASS] {
        text.put_next_hex(*corner);
    }
}

// The line of a record.
pub fn put_record(text: &mut Text, fields: &[u32; 40])
    requires { HasRoom 200 text.old }
    ensures { Wrote (record_line fields.now) text.old text.new }
{
    put_circle(text, fields);
    put_turn(text, fields);
    text.put_next_hex(fields[records::VARIANCE]);
    put_corners(text, fields);
    text.put(b"\n");
}
