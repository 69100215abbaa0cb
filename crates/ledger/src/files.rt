// Reading the file that an argument names, as far as a buffer goes.
ghost use Rattle.std.specs.Prelude.{◌+◌, ◌≤◌, ◌<◌, length, IfOk, IfSome};

use std::env::Env;
use std::io::Read;
use std::rt::Files;
use std::str::from_utf8;
use std::{fs, io};

// Room for the name of a file.
const PATH_MOST: usize = 4096;

// One read behind the first `have` bytes of the buffer; how many bytes, 0 at the end of the file.
fn fill<F: Read>(file: &mut F, buf: &mut [u8], have: usize) -> io::Result<usize>
    requires { have < length buf.old }
    ensures { IfOk result (λ n. have + n ≤ length buf.new) }
{
    file.read(&mut buf[have..])
}

// Reads until the file ends, the buffer is full or a read fails; how many bytes of the buffer it takes, the whole of the file where they are fewer than
// the buffer has. A loop of its own, since std's `read_to_end` fills a `Vec`, which needs a heap.
fn read_open<F: Read>(file: &mut F, buf: &mut [u8]) -> io::Result<usize>
    ensures { IfOk result (λ n. n ≤ length buf.new) }
{
    let mut have: usize = 0;
    while have < buf.len() {
        let n = fill(file, buf, have)?;
        if n == 0 {
            return Ok(have);
        }
        have += n;
    }
    Ok(have)
}

// The file of that name, which is UTF-8; none where it could not be opened or read.
fn read_path<R: Files>(rt: &R, path: &[u8], buf: &mut [u8]) -> Option<usize>
    ensures { IfSome result (λ n. n ≤ length buf.new) }
{
    let name = from_utf8(path).ok()?;
    let mut file = fs::open(rt, name).ok()?;
    read_open(&mut file, buf).ok()
}

// The file that argument i names. No file has an empty name, and an argument that is missing or too long names none.
pub(crate) fn read_argument<R: Env + Files>(rt: &R, i: usize, buf: &mut [u8]) -> Option<usize>
    ensures { IfSome result (λ n. n ≤ length buf.new) }
{
    let mut path = [0u8; PATH_MOST];
    let n = rt.arg(i, &mut path).ok()?;
    read_path(rt, &path[..n], buf)
}
