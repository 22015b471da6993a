// The layout of a pack of vectors.
ghost use Rattle.std.specs.Prelude.{cond, ◌≡◌, ◌+◌, ◌*◌, ◌^◌, ◌<◌, ◌≤◌, length, slice_index};
ghost use Rattle.replay.specs.Pack.{le32, le64, accepted, records_at, kept_words, cleared_words, marks_at, mark_words, size_of};

use detector::Report;

// What a vector says: whether the ellipse check is on, the lengths of the lent words, records and marks and of the file, and the report.
#[derive(Clone, Copy)]
pub struct Vector {
    pub ellipse: bool,
    pub words: u32,
    pub records: u32,
    pub marks: u32,
    pub file: u32,
    pub report: Report,
}

// Byte i, or 0 past the end.
pub fn byte(bytes: &[u8], i: usize) -> u64
    ensures { (result ≡ slice_index bytes.now i) × (result < 256) }
{
    bytes.get(i).map_or(0, |byte| u64::from(*byte))
}

// Four bytes as one number, the first byte lowest.
pub fn u32_at(pack: &[u8], at: usize) -> u32
    requires { at + 4 ≤ length pack.now }
    ensures { result ≡ le32 pack.now at }
{
    u32::from_le_bytes(*pack[at..].first_chunk().unwrap())
}

// Eight bytes, likewise. One function of both would need a trait for `from_le_bytes`.
pub fn u64_at(pack: &[u8], at: usize) -> u64
    requires { at + 8 ≤ length pack.now }
    ensures { result ≡ le64 pack.now at }
{
    u64::from_le_bytes(*pack[at..].first_chunk().unwrap())
}

impl Vector {
    // The vector at the beginning of these bytes, after its name.
    pub fn read(bytes: &[u8]) -> Vector
        requires { 64 ≤ length bytes.now }
    {
        Vector {
            ellipse: u32_at(bytes, 28) != 0,
            words: u32_at(bytes, 32),
            records: u32_at(bytes, 36),
            marks: u32_at(bytes, 40),
            file: u32_at(bytes, 44),
            report: Report {
                answer: u32_at(bytes, 48),
                found: u32_at(bytes, 52),
                kept: u32_at(bytes, 56),
                marked: u32_at(bytes, 60),
            },
        }
    }

    // Whether the image was accepted and searched.
    pub fn is_accepted(self) -> bool
        ensures { result ≡ accepted self }
    {
        matches!(self.report.answer, 0 | 7 | 8 | 9)
    }

    // So many words of an accepted image, none of another.
    fn if_accepted(self, words: usize) -> usize
        ensures { (result ≡ cond (accepted self) words 0) × (result ≤ words) }
    {
        if self.is_accepted() { words } else { 0 }
    }

    // Where the kept records begin, counted from the vector's start.
    pub fn records_at(self) -> usize
        ensures { (result ≡ records_at self) × (result < 2 ^ 33) }
    {
        64 + (self.file as usize + 7) / 8 * 8
    }

    // The words of the kept records.
    pub fn kept_words(self) -> usize
        ensures { (result ≡ kept_words self) × (result < 40 * 2 ^ 32) }
    {
        self.if_accepted(40 * self.report.kept as usize)
    }

    // The words of the buffer's whole records, at most 1,024 of them, which a search writes.
    pub fn cleared_words(self) -> usize
        ensures { result ≡ cleared_words self }
    {
        let whole = self.records as usize / 40 * 40;
        self.if_accepted(whole.min(40960))
    }

    // Where the marks begin, counted from the vector's start.
    pub fn marks_at(self) -> usize
        ensures { (result ≡ marks_at self) × (result < 2 ^ 41) }
    {
        self.records_at() + 4 * self.kept_words()
    }

    // The words of the marks.
    pub fn mark_words(self) -> usize
        ensures { (result ≡ mark_words self) × (result < 2 ^ 32) }
    {
        self.if_accepted(self.marks as usize)
    }

    // The bytes of the whole vector.
    pub fn size_of(self) -> usize
        ensures { (result ≡ size_of self) × (64 ≤ result) }
    {
        self.marks_at() + 8 * self.mark_words()
    }
}
