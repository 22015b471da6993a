// Replays the stored vectors of standard input (oracle/src/vectors.rs has their layout). Each crop file is searched in lent buffers that hold a pattern
// before; the report and every word of the buffers are compared with what the vector says. It writes the name of each vector that comes out otherwise,
// then how many vectors there were and how many of them wrong.
#![tactic(auto)]

mod lent;
mod pack;

ghost use Rattle.std.specs.Prelude.{◌≡◌, ◌≤◌, length};
ghost use Rattle.replay.specs.Pack.{size_of};

use crate::lent::{fill_marks, fill_records, fill_words, same_marks, same_records, same_words};
use crate::pack::Vector;
use detector::Report;
use std::io;

// Whether a report and the buffers after a search are as the vector of these bytes says.
fn agrees(
    bytes: &[u8],
    vector: Vector,
    report: Report,
    words: &[u64],
    records: &[u32],
    marks: &[u64],
) -> bool
    requires { (size_of vector ≤ length bytes.now) × (length words.now ≤ 8000) }
{
    let (records_at, marks_at) = (vector.records_at(), vector.marks_at());
    report == vector.report
        && same_words(
            words,
            &bytes[64..64 + vector.file as usize],
            vector.is_accepted(),
        )
        && same_records(
            records,
            &bytes[records_at..marks_at],
            vector.cleared_words(),
        )
        && same_marks(marks, &bytes[marks_at..vector.size_of()])
}

// The search of a file in buffers that hold the pattern.
fn searched(
    file: &[u8],
    words: &mut [u64],
    records: &mut [u32],
    marks: &mut [u64],
    ellipse: bool,
) -> Report {
    fill_words(words);
    fill_records(records);
    fill_marks(marks);
    detector::search_file(file, words, records, marks, ellipse)
}

// Whether a search in these buffers does what the vector of these bytes says.
fn is_right_in(
    bytes: &[u8],
    vector: Vector,
    words: &mut [u64],
    records: &mut [u32],
    marks: &mut [u64],
) -> bool
    requires { (size_of vector ≤ length bytes.now) × (length words.old ≤ 8000) }
{
    let file = &bytes[64..64 + vector.file as usize];
    let report = searched(file, words, records, marks, vector.ellipse);
    agrees(bytes, vector, report, words, records, marks)
}

// The same in buffers of the lengths that the vector says. Longer ones than these no vector has.
fn is_right(bytes: &[u8], vector: Vector) -> bool
    requires { size_of vector ≤ length bytes.now }
{
    let words_len = vector.words as usize;
    let records_len = vector.records as usize;
    let marks_len = vector.marks as usize;
    if 8000 < words_len || 80000 < records_len || 8000 < marks_len {
        return false;
    }
    let mut words = [0u64; 8000];
    let mut records = [0u32; 80000];
    let mut marks = [0u64; 8000];
    is_right_in(
        bytes,
        vector,
        &mut words[..words_len],
        &mut records[..records_len],
        &mut marks[..marks_len],
    )
}

// Writes the name that begins these bytes of a vector: 28 of them, padded with zeros.
fn print_wrong(rt: &impl Print, bytes: &[u8]) -> io::Result<()>
    requires { 28 ≤ length bytes.now }
{
    let end = bytes
        .iter()
        .position(|byte| *byte == 0)
        .unwrap_or(28)
        .min(28);
    rt.write_all(b"wrong: ")?;
    rt.write_all(&bytes[..end])?;
    rt.write_all(b"\n")
}

// Replays the vectors of a pack one after another. A pack that ends within a vector is cut off, and so may be one as long as `space`.
fn replay(rt: &impl Print, pack: &[u8]) -> io::Result<()> {
    let mut vectors = 0u64;
    let mut wrong = 0u64;
    let mut rest = pack;
    // A while: each vector has a size of its own.
    while 64 <= rest.len() {
        let vector = Vector::read(rest);
        let size = vector.size_of();
        if rest.len() < size {
            break;
        }
        let (bytes, later) = rest.split_at(size);
        if !is_right(bytes, vector) {
            print_wrong(rt, bytes)?;
            wrong += 1;
        }
        rest = later;
        vectors += 1;
    }
    if !rest.is_empty() || pack.len() == 2097152 {
        println!(rt; "the pack is cut off")?;
    }
    println!(rt; "{vectors} vectors, {wrong} wrong")
}

// Room for a pack.
fn space() -> [u8; 2097152]
    ensures { 2097152 ≡ length result }
{
    [0; 2097152]
}

fn main(rt: HostRuntime) -> io::Result<()> {
    let mut pack = space();
    let n = input::read_full(&mut rt.stdin(), &mut pack)?;
    replay(&rt, &pack[..n])
}
