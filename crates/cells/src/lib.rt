// The entries that read cells: an image, in words or in a crop file, is refused, or its cells are read.
#![tactic(auto)]

ghost use Rattle.std.specs.Prelude.{cond, ◌≡◌};
ghost use Rattle.crop_sizes.specs.Sizes.{misfit};
ghost use Rattle.crop_sizes.specs.Refusals.{answer_of};
ghost use Rattle.detector_points.specs.Orientation.{matrix_height};
ghost use Rattle.detector_cells.specs.Cells.{cells_run};
ghost use Rattle.cells.specs.declared.Unread.TheVariants.{Refused, Blank};
ghost use Rattle.cells.specs.Entries.{unread_number, cells_answer, words_cells, filed_cells, file_cells};

use bit_matrix::Unmarked;
use crop_sizes::Refusal;
use detector_points::MATRIX_HEIGHT;

// Why no cells are read: the image or what is lent is refused, or no pixel is black.
#[derive(Clone, Copy, Debug, PartialEq, Eq)]
pub enum Unread {
    Refused(Refusal),
    Blank,
}

impl From<Refusal> for Unread {
    ghost from_gives = { λ refusal unread. unread ≡ Refused refusal };

    fn from(refusal: Refusal) -> Unread {
        Unread::Refused(refusal)
    }
}

impl From<detector_cells::Blank> for Unread {
    ghost from_gives = { λ blank unread. unread ≡ Blank };

    fn from(_blank: detector_cells::Blank) -> Unread {
        Unread::Blank
    }
}

impl From<Unread> for u32 {
    ghost from_gives = { λ unread number. number ≡ unread_number unread };

    fn from(unread: Unread) -> u32 {
        match unread {
            Unread::Refused(refusal) => refusal.into(),
            Unread::Blank => 10,
        }
    }
}

// Refuses a cell buffer of another length than the rows of a symbol.
fn cells_room(cells_len: usize) -> Result<(), Refusal>
    ensures { answer_of result ≡ cond (misfit cells_len matrix_height) 6 0 }
{
    if cells_len != MATRIX_HEIGHT as usize {
        return Err(Refusal::Lent);
    }
    Ok(())
}

// The cells of an image in words.
pub fn cells_words(words: &[u64], width: u32, height: u32, cells: &mut [u32]) -> Result<(), Unread>
    ensures { cells_run (cells_answer result) cells.new
        ≡ words_cells words.now width height cells.old }
{
    let shape = crop::check_words(words, width, height)?;
    cells_room(cells.len())?;
    detector_cells::read_bits(&Unmarked { words, shape }, cells)?;
    Ok(())
}

// The cells of a crop file, with words to unpack it into.
pub fn cells_file(file: &[u8], words: &mut [u64], cells: &mut [u32]) -> Result<(), Unread>
    ensures { filed_cells words.new (cells_run (cells_answer result) cells.new)
        ≡ file_cells file.now words.old cells.old }
{
    let shape = crop::unpack_refusal(crop::check_file(file), words.len())?;
    cells_room(cells.len())?;
    crop_rows::unpack_rows(file, shape, words);
    detector_cells::read_bits(&Unmarked { words, shape }, cells)?;
    Ok(())
}
