// Crop files and images in words: why one is refused, and a file unpacked into words.
#![tactic(auto)]

ghost use Rattle.std.specs.Prelude.{false, cond, IfOk, MatchOption, ◌||◌, ◌≡◌, ◌≤◌, ◌<◌, length};
ghost use Rattle.bit_matrix.specs.Shape.{row_words, shape_of, size};
ghost use Rattle.crop_sizes.specs.Sizes.{misfit};
ghost use Rattle.crop_sizes.specs.Refusals.{answer_of};
ghost use Rattle.crop.specs.Crop.{header, no_room, refusal, words_refusal_of, words_refusal, Unpacks};
ghost use Rattle.crop.specs.CropClauses.{HeadedBy, Checks, or_lent};

use bit_matrix::{Shape, Unmarked};
use crop_padding::CropFile;
use crop_sizes::Refusal;

// The kind of a crop file.
const KIND: u32 = 1;

// The first four bytes as one number, most significant bit first, or none of a shorter file.
fn header(file: &[u8]) -> Option<u32>
    ensures { MatchOption result (length file.now < 4) (λ head. (4 ≤ length file.now) × (head ≡ header file.now)) }
{
    let bytes = file.first_chunk()?;
    Some(u32::from_be_bytes(*bytes))
}

// What is wrong with a file's header, or the shape of its image.
fn header_shape(file: &[u8]) -> Result<Shape, Refusal>
    ensures { HeadedBy file.now result }
{
    let head = header(file).ok_or(Refusal::Header)?;
    if head / 268435456 != KIND || head % 16 != 0 {
        return Err(Refusal::Header);
    }
    Ok(crop_sizes::shape_of(head / 65536 % 4096, head / 16 % 4096))
}

// The first of the reasons that is wrong with a file by itself, or the shape of its image.
pub fn check_file(file: &[u8]) -> Result<Shape, Refusal>
    ensures { Checks file.now result }
{
    let shape = header_shape(file)?;
    let needed = crop_sizes::file_length(shape);
    crop_sizes::size_refusal(shape, crop_sizes::LEAST, file.len(), needed)?;
    if crop_padding::file_padded(&CropFile { bytes: file, shape }) {
        return Err(Refusal::Padding);
    }
    Ok(shape)
}

// The shape of an image, where marks as long as its words are lent, and a record buffer with room for a record.
fn search_room(shape: Shape, marks_len: usize, records_len: usize) -> Result<Shape, Refusal>
    requires { shape.row_words ≡ row_words shape.width }
    ensures answer { answer_of result ≡ cond (no_room (size shape) marks_len records_len) 6 0 }
    ensures shape { IfOk result (λ same. same ≡ shape) }
{
    if marks_len != crop_sizes::image_words(shape) || records_len < 40 {
        return Err(Refusal::Lent);
    }
    Ok(shape)
}

// The first of the reasons that is wrong with an image in words, but for the header, or its shape.
pub fn check_words(words: &[u64], width: u32, height: u32) -> Result<Shape, Refusal>
    ensures answer { answer_of result ≡ words_refusal_of words.now width height false }
    ensures shape { IfOk result (λ shape. shape ≡ shape_of width height) }
{
    let shape = crop_sizes::shape_of(width, height);
    let needed = crop_sizes::image_words(shape);
    crop_sizes::size_refusal(shape, crop_sizes::LEAST, words.len(), needed)?;
    if crop_padding::words_padded(&Unmarked { words, shape }) {
        return Err(Refusal::Padding);
    }
    Ok(shape)
}

// The same with the lengths of the marks and of the record buffer.
pub fn words_refusal(
    words: &[u64],
    width: u32,
    height: u32,
    marks_len: usize,
    records_len: usize,
) -> Result<Shape, Refusal>
    ensures answer { answer_of result ≡ words_refusal words.now width height marks_len records_len }
    ensures shape { IfOk result (λ shape. shape ≡ shape_of width height) }
{
    let shape = check_words(words, width, height)?;
    search_room(shape, marks_len, records_len)
}

// What is wrong with a file that was checked, with the length of the words to unpack into, or its shape.
pub fn unpack_refusal(checked: Result<Shape, Refusal>, words_len: usize) -> Result<Shape, Refusal>
    requires { IfOk checked (λ shape. shape.row_words ≡ row_words shape.width) }
    ensures answer { answer_of result ≡ or_lent checked (λ shape. misfit words_len (size shape)) }
    ensures shape { IfOk result (λ shape. checked ≡ Ok shape) }
{
    let shape = checked?;
    if words_len != crop_sizes::image_words(shape) {
        return Err(Refusal::Lent);
    }
    Ok(shape)
}

// The same with the lengths of the marks and of the record buffer.
pub fn file_refusal(
    checked: Result<Shape, Refusal>,
    words_len: usize,
    marks_len: usize,
    records_len: usize,
) -> Result<Shape, Refusal>
    requires { IfOk checked (λ shape. shape.row_words ≡ row_words shape.width) }
    ensures answer { answer_of result ≡ or_lent checked (λ shape. misfit words_len (size shape) || no_room (size shape) marks_len records_len) }
    ensures shape { IfOk result (λ shape. checked ≡ Ok shape) }
{
    let shape = unpack_refusal(checked, words_len)?;
    search_room(shape, marks_len, records_len)
}

// The words of a file into a lent buffer, which is written only when nothing refuses.
pub fn unpack(file: &[u8], words: &mut [u64]) -> Result<(), Refusal>
    ensures { Unpacks file.now words.old (answer_of result) words.new }
{
    let shape = unpack_refusal(check_file(file), words.len())?;
    crop_rows::unpack_rows(file, shape, words);
    Ok(())
}
