// One whole input in lent memory, for the test programs.
#![tactic(auto)]

ghost use Rattle.std.specs.Prelude.{◌≤◌, length};

use std::io::Read;

// Reads until the buffer is full, the input ends or a read fails, and answers how many bytes stand at the front of the buffer. A loop of its own, since
// std's `read_to_end` fills a `Vec`, which needs a heap.
pub fn read_full<R: Read>(input: &mut R, buf: &mut [u8]) -> usize
    ensures { result ≤ length buf.new }
{
    let mut done: usize = 0;
    while done < buf.len() {
        match input.read(&mut buf[done..]) {
            Ok(0) | Err(_) => return done,
            Ok(n) => done += n,
        }
    }
    done
}
