// The marks of an image, one word for each of its words: cleared and counted.
#![tactic(auto)]

ghost use Rattle.std.specs.Prelude.{◌≡◌, ◌^◌, ◌<◌, length};
ghost use Rattle.reads.specs.Bits.{zeros};
ghost use Rattle.marks.specs.Marks.{ones_of};

// All marks cleared.
pub fn clear(marks: &mut [u64])
    ensures { marks.new ≡ zeros (length marks.old) }
{
    marks.fill(0);
}

// The number of marked bits. The bound on the words keeps the number in a u32.
pub fn count_marks(marks: &[u64]) -> u32
    requires { length marks.now < 2 ^ 26 }
    ensures { result ≡ ones_of marks.now }
{
    marks.iter().map(|word| word.count_ones()).sum()
}
