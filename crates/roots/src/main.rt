// Runs the square root on the vectors of standard input: a line for each, the bit pattern of an f64
// and that of its root, in 16 hexadecimal digits. It writes a line for each root that came out
// otherwise, and then how many vectors there were and how many of them wrong.
#![tactic(auto)]

use std::io;

// A line's two patterns of 16 digits, each with the byte after it.
const WIDTH: usize = 34;

// A hexadecimal digit's number; another byte counts as 0, the capitals too, which `to_digit` would read.
fn digit(byte: u8) -> u64 {
    match byte {
        b'0'..=b'9' => u64::from(byte - b'0'),
        b'a'..=b'f' => u64::from(byte - b'a') + 10,
        _ => 0,
    }
}

// The number that digits write.
fn number(digits: &[u8]) -> u64 {
    digits.iter().fold(0, |n, byte| n << 4 | digit(*byte))
}

// Whether the root comes out as the line has it. If not, writes the line's pattern.
fn is_right(rt: &impl Print, line: &[u8; WIDTH]) -> io::Result<bool> {
    let pattern = number(&line[..16]);
    let root = ieee_sqrt::sqrt_f64(std::num::f64_from_bits_with_nan(pattern));
    if std::num::f64_to_bits_with_nan(root) == number(&line[17..33]) {
        return Ok(true);
    }
    println!(rt; "wrong: {pattern:016x}")?;
    Ok(false)
}

// How many lines came out wrong.
fn count_wrong(rt: &impl Print, lines: &[[u8; WIDTH]]) -> io::Result<usize> {
    let mut wrong = 0;
    for line in lines {
        if !is_right(rt, line)? {
            wrong += 1;
        }
    }
    Ok(wrong)
}

fn main(rt: HostRuntime) -> io::Result<()> {
    let mut space = [0u8; 65536];
    let n = input::read_full(&mut rt.stdin(), &mut space)?;
    let (lines, _) = space[..n].as_chunks();
    let wrong = count_wrong(&rt, lines)?;
    let vectors = lines.len();
    println!(rt; "{vectors} vectors, {wrong} wrong")
}
