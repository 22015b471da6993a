// Reading an input into a lent buffer.
#![tactic(auto)]

ghost use Rattle.std.specs.Prelude.{IfOk, take, ◌<◌, length};
ghost use Rattle.std.specs.Io.{ReadsAtMost};
ghost use Rattle.std.specs.Io.KnownBytes.{Consumes, IsAtEnd};

use std::io;
use std::io::Read;

// Reads until the buffer is full or the input ends, and answers how many bytes of the input stand at the buffer's start: fewer than it has room for only
// where the input has ended. A read that fails ends it, with that read's error.
pub fn read_full<R: Read>(reader: &mut R, buf: &mut [u8]) -> io::Result<usize>
    ensures in_bounds { ReadsAtMost result buf.new }
    ensures bytes { IfOk result (λ n. Consumes (R.remaining reader.old) (R.remaining reader.new) (take n buf.new)) }
    ensures end { IfOk result (λ n. n < length buf.new → IsAtEnd (R.remaining reader.new)) }
{
    let mut done = 0;
    // A `while`, for each read says how far it came.
    while done < buf.len() {
        let n = reader.read(&mut buf[done..])?;
        if n == 0 {
            return Ok(done);
        }
        done += n;
    }
    Ok(done)
}
