// Reads a crop on standard input, searches it with room for 400 records, and prints the line of the report and one for each kept record.
#![tactic(auto)]

ghost use Rattle.std.specs.Prelude.{◌≡◌, List, ℕ, IfOk, OnOk, IfSome, ◌≤◌, length};
ghost use Rattle.std.specs.Io.KnownBytes.{Appends};
ghost use Rattle.bit_matrix.specs.Shape.{row_words};
ghost use Rattle.crop.specs.CropClauses.{Checks};
ghost use Rattle.text.specs.Text.{Puts};
ghost use Rattle.find.specs.Find.{lent_words, printed};

use bit_matrix::Shape;
use crop_sizes::Refusal;
use std::io;
use std::io::{ErrorKind, Read, Write};
use std::process::ExitCode;

// The status that a shell gives for a program that a closed pipe has ended by its signal.
const CLOSED_PIPE: u8 = 141;

// What could not be done: reading the input, or writing what is printed.
#[derive(Drop)]
enum Failure {
    Input,
    Output(io::Error),
}

// The words to lend for a file that was checked: those of its image, or none where the file is refused.
fn lent_words(checked: Result<Shape, Refusal>) -> usize
    requires { IfOk checked (λ shape. shape.row_words ≡ row_words shape.width) }
    ensures { (file : List ℕ) → Checks file checked → (result ≡ lent_words file) × (result ≤ 8000) }
{
    match checked {
        Ok(shape) => crop_sizes::image_words(shape),
        Err(_) => 0,
    }
}

// All that is printed of a crop file: it is checked and searched, and its lines are put into a buffer.
fn put_lines(file: &[u8], text: &mut [u8]) -> usize
    requires { 80080 ≤ length text.old }
    ensures { Puts (printed file.now) 0 text.old result text.new }
{
    let checked = crop::check_file(file);
    let size = lent_words(checked);
    let mut words = [0u64; 8000];
    let mut marks = [0u64; 8000];
    let mut records = [0u32; 16000];
    let report = detector::search_checked(
        file,
        checked,
        &mut words[..size],
        &mut records,
        &mut marks[..size],
        false,
    );
    text_run::put_run(text, report, &records)
}

// Whether an input has ended: the read after its last byte gives none.
fn has_ended<R: Read>(reader: &mut R) -> bool {
    let mut byte = [0u8; 1];
    matches!(reader.read(&mut byte), Ok(0))
}

// Reads an input and writes all that is printed of it. Of a longer input 65,536 bytes are read: no accepted crop has more than 64,004, and the rest does not
// change what is printed.
fn find<R: Read, W: Write>(reader: &mut R, writer: &mut W) -> Result<(), Failure>
    ensures { OnOk result (IfSome (R.remaining reader.old)
        (λ input. Appends (W.contents writer.old) (W.contents writer.new) (printed input))) }
{
    let mut input = [0u8; 65536];
    let n = input::read_full(reader, &mut input).map_err(|_| Failure::Input)?;
    if n < input.len() && !has_ended(reader) {
        return Err(Failure::Input);
    }
    let mut text = [0u8; 80080];
    let end = put_lines(&input[..n], &mut text);
    writer.write_all(&text[..end]).map_err(Failure::Output)?;
    Ok(())
}

// What could not be done, on standard error. Where that cannot be written either, nothing is left to tell it on.
fn complain(rt: &impl Eprint, line: &str) {
    let _ = rt.eprintln(line);
}

// What was told on standard error does not change the status.
fn main(rt: HostRuntime) -> ExitCode {
    match find(&mut rt.stdin(), &mut rt.stdout()) {
        Ok(()) => ExitCode::SUCCESS,
        Err(Failure::Input) => {
            complain(&rt, "find: standard input cannot be read");
            ExitCode::SUCCESS
        }
        Err(Failure::Output(e)) => {
            if e.kind() == ErrorKind::BrokenPipe {
                return ExitCode::from(CLOSED_PIPE);
            }
            complain(&rt, "find: standard output cannot be written");
            ExitCode::SUCCESS
        }
    }
}
