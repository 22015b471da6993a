// The bits of a row by whole words: where the colour changes, and a range marked. A row is given by its first word, and a bit by its column: a flat
// index of 64 × words need not fit a usize.
#![tactic(auto)]

ghost use Rattle.std.specs.Prelude.{◌≡◌, ◌+◌, ◌-◌, ◌*◌, ◌/◌, ◌%◌, ◌^◌, ◌≤◌, ◌<◌, get_or};
ghost use Rattle.reads.specs.MasksLaws.{mask};
ghost use Rattle.reads.specs.Bits.{range, mark_all};
ghost use Rattle.bit_runs.specs.BitRuns.{row_bit, FirstBlack, Changes};

// Ones from a place of a word up to, not including, another.
fn mask_of(place: usize, end: usize) -> u64
    requires { (place < 64) × (place ≤ end) × (0 < end) × (end ≤ 64) }
    ensures { result ≡ mask (end - place) place }
{
    (u64::MAX >> (64 - end)) - ((1 << place) - 1)
}

// The columns from `from` up to, not including, `to` are marked. Past the last word there is nothing to mark.
pub fn mark_range(marks: &mut [u64], first: usize, from: usize, to: usize)
    requires { (from ≤ to) × (first + to / 64 < 2 ^ 64) }
    ensures { marks.new ≡ mark_all marks.old (range (first * 64 + from) (to - from)) }
{
    for word in from / 64..to.div_ceil(64) {
        let column = word * 64;
        let ones = mask_of(from.saturating_sub(column), (to - column).min(64));
        if first + word < marks.len() {
            marks[first + word] |= ones;
        }
    }
}

// A word, or zero past the last.
fn word_at(words: &[u64], at: usize) -> u64
    ensures { result ≡ get_or words.now at 0 }
{
    words.get(at).copied().unwrap_or(0)
}

// The first black column from `from` on, and before `to`, or `to`. Past the last word all is white.
pub fn first_black(words: &[u64], first: usize, from: usize, to: usize) -> usize
    requires { (from ≤ to) × (to < 2 ^ 63) × (first + to / 64 < 2 ^ 64) }
    ensures { FirstBlack (row_bit words.now first) from to result }
{
    for word in from / 64..to.div_ceil(64) {
        let column = from.max(word * 64);
        let black = word_at(words, first + word) >> (column % 64);
        if black != 0 {
            return (column + black.trailing_zeros() as usize).min(to);
        }
    }
    to
}

// Where the colour changes, from a column to the end of its word. `black` is the colour before it. What the bits above those say is left open.
pub fn changes(words: &[u64], first: usize, from: usize, black: bool) -> u64
    requires { first + from / 64 < 2 ^ 64 }
    ensures { Changes (row_bit words.now first) black from (64 - from % 64) result }
{
    let word = word_at(words, first + from / 64) >> (from % 64);
    word ^ (word << 1 | black as u64)
}
