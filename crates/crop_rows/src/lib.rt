// A crop file's rows unpacked into words.
#![tactic(auto)]

ghost use Rattle.std.specs.Prelude.{◌≡◌, ◌+◌, ◌*◌, ◌-◌, ◌≤◌, ◌<◌, min, length};
ghost use Rattle.reads.specs.Bits.{test_bit};
ghost use Rattle.bit_matrix.specs.Shape.{size};
ghost use Rattle.crop_padding.specs.Below.{number};
ghost use Rattle.crop_rows.specs.Bytes.{byte_bit, mirrored, swap};
ghost use Rattle.crop_rows.specs.Unpack.{unpacked};
ghost use Rattle.crop_rows.specs.UnpackClauses.{FileAccepted};

use bit_matrix::Shape;

// At most one byte as a word.
fn load_last(bytes: &[u8]) -> u64
    requires { length bytes.now < 2 }
    ensures { result ≡ number (byte_bit bytes.now 0) (8 * length bytes.now) }
{
    if bytes.is_empty() {
        return 0;
    }
    u64::from(bytes[0])
}

// Fewer than four bytes as one word, the first byte lowest.
fn load_fewer(bytes: &[u8]) -> u64
    requires { length bytes.now < 4 }
    ensures { result ≡ number (byte_bit bytes.now 0) (8 * length bytes.now) }
{
    match bytes.split_first_chunk() {
        Some((two, rest)) => u64::from(u16::from_le_bytes(*two)) | load_last(rest) << 16,
        None => load_last(bytes),
    }
}

// Fewer than eight bytes as one word, the first byte lowest. By four, two and one of them: byte by byte, narrow images take a quarter more time to unpack.
fn load_few(bytes: &[u8]) -> u64
    requires { length bytes.now < 8 }
    ensures { result ≡ number (byte_bit bytes.now 0) (8 * length bytes.now) }
{
    match bytes.split_first_chunk() {
        Some((four, rest)) => u64::from(u32::from_le_bytes(*four)) | load_fewer(rest) << 32,
        None => load_fewer(bytes),
    }
}

// Word x of the row that starts at byte `start` of a file and has `bytes` bytes. The last word may have fewer than eight of them.
// A slice of the row's bytes in place of three numbers is proved too, but its speed is not measured, and unpacking is timed.
fn load(file: &[u8], start: usize, bytes: usize, x: usize) -> u64
    requires { (start + bytes ≤ length file.now) × (8 * x < bytes) }
    ensures { result ≡ number (byte_bit file.now (start + 8 * x)) (8 * min 8 (bytes - 8 * x)) }
{
    let rest = &file[start + 8 * x..start + bytes];
    match rest.first_chunk() {
        Some(eight) => u64::from_le_bytes(*eight),
        None => load_few(rest),
    }
}

// A word in which every other group of bits, those of the mask, and the groups next to them change places.
fn swap(word: u64, by: u32, mask: u64) -> u64
    requires { by < 64 }
    ensures { result ≡ swap word by mask }
{
    word >> by & mask | (word & mask) << by
}

// A word with the bits of each byte in reverse order: halves, pairs and single bits change places.
// By hand: `word.reverse_bits().swap_bytes()` is a loop of 64 turns, and takes eight times as long.
fn reverse(word: u64) -> u64
    ensures { result ≡ number (λ k. test_bit word (mirrored k)) 64 }
{
    let halves = swap(word, 4, 0x0f0f0f0f0f0f0f0f);
    let pairs = swap(halves, 2, 0x3333333333333333);
    swap(pairs, 1, 0x5555555555555555)
}

// All words of an accepted file.
// No plainer by a `CropFile`: each caller has one fact of the file and its shape, and would make a struct of it that still leaves the padding to ask.
pub fn unpack_rows(file: &[u8], shape: Shape, words: &mut [u64])
    requires { FileAccepted shape file.now × (length words.old ≡ size shape) }
    ensures { words.new ≡ unpacked file.now shape }
{
    let bytes = (shape.width as usize + 7) / 8;
    let row = shape.row_words;
    for y in 0..shape.height as usize {
        for x in 0..row {
            words[y * row + x] = reverse(load(file, 4 + y * bytes, bytes, x));
        }
    }
}
