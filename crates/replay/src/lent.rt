// The lent buffers: the pattern that fills them, and what they hold afterwards.
ghost use Rattle.std.specs.Prelude.{ℕ, ◌<◌, ◌≤◌, length};

use crate::pack::{byte, u32_at, u64_at};

// The pattern: word i is i + 1 times this number, without the bits beyond 64.
fn next(p: u64) -> u64 {
    p.wrapping_add(0x9e37_79b9_7f4a_7c15)
}

// The low half of a pattern word.
fn low(p: u64) -> u32 {
    (p % 4294967296) as u32
}

// Fills a buffer with what `word` makes of the pattern.
fn fill<T: Copy, F: Fn(u64) -> T>(lent: &mut [T], word: F)
    requires { F.IsAlwaysCallable word }
{
    let mut p = 0;
    for slot in lent.iter_mut() {
        p = next(p);
        *slot = word(p);
    }
}

pub fn fill_words(words: &mut [u64]) {
    fill(words, |p| p);
}

pub fn fill_records(records: &mut [u32]) {
    fill(records, low);
}

// Marks have the pattern's bits turned round.
pub fn fill_marks(marks: &mut [u64]) {
    fill(marks, |p| !p);
}

// Whether each word of a buffer is the one that is expected at its place, by the pattern's word there.
fn same<T: Copy + PartialEq, F: Fn(usize, u64) -> T>(lent: &[T], expected: F) -> bool
    requires { (i p : ℕ) → i < length lent.now → F.pre expected i p }
{
    let mut p = 0;
    for (i, word) in lent.iter().enumerate() {
        p = next(p);
        if *word != expected(i, p) {
            return false;
        }
    }
    true
}

// The bit of a column, in a row that starts at byte `start` of a file; 0 in the padding.
fn pixel(file: &[u8], start: usize, width: usize, column: usize) -> u64
    requires { (start ≤ 5000000) × (column ≤ 8192) }
{
    if column < width {
        byte(file, start + column / 8) >> (7 - column % 8) & 1
    } else {
        0
    }
}

// The word of the 64 columns from `column` on, the first of them lowest.
fn word_at(file: &[u8], start: usize, width: usize, column: usize) -> u64
    requires { (start ≤ 5000000) × (column ≤ 4096) }
{
    let mut word = 0u64;
    for k in (0..64).rev() {
        word = word << 1 | pixel(file, start, width, column + k);
    }
    word
}

// The words are the file's image, row by row, or the pattern where it was refused.
pub fn same_words(words: &[u64], file: &[u8], accepted: bool) -> bool
    requires { length words.now ≤ 8000 }
{
    let width = (byte(file, 0) % 16 * 256 + byte(file, 1)) as usize;
    let row_bytes = (width + 7) / 8;
    let row_words = ((width + 63) / 64).max(1);
    same(words, |i, p| {
        if accepted {
            word_at(
                file,
                4 + i / row_words * row_bytes,
                width,
                i % row_words * 64,
            )
        } else {
            p
        }
    })
}

// The first words are those of the bytes `kept`; those up to `cleared` are zero; the rest has the pattern.
pub fn same_records(records: &[u32], kept: &[u8], cleared: usize) -> bool {
    same(records, |i, p| {
        if i < kept.len() / 4 {
            u32_at(kept, 4 * i)
        } else if i < cleared {
            0
        } else {
            low(p)
        }
    })
}

// The first words are those of the bytes `marked`, the rest has the pattern.
pub fn same_marks(marks: &[u64], marked: &[u8]) -> bool {
    same(
        marks,
        |i, p| if i < marked.len() / 8 {
            u64_at(marked, 8 * i)
        } else {
            !p
        },
    )
}
