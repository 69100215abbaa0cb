// Reading standard input to its end, or until a line is refused.
ghost use Rattle.std.specs.Prelude.{◌≡◌, ◌≤◌, ◌<◌, length, Some};
ghost use Rattle.judge.specs.Feed.{tables};
ghost use Rattle.run.specs.Chunk.{carried_most};
ghost use Rattle.input.specs.declared.reads.ReadError.TheVariants.{Failed};
ghost use Rattle.input.specs.Reads.{buffer_size, OneFill, Stepped, input_refusal, input_number, Taken};

use ranges::range::table_answer;
use run::chunk::{take_chunk, take_last};
use std::io;
use std::io::Read;

// What a read and its turn came to: how many bytes, 0 at the end of input; and how many are carried over, where reading goes on: it ends with the
// input, and where a line is refused.
#[derive(Clone, Copy, Debug, PartialEq, Eq, Hash)]
struct Step {
    bytes: usize,
    left: Option<usize>,
}

// Why an input is not read to its end: a read failed; or what was lent is refused, for the size of the buffer or of a table (15) or for an entry of a
// table out of its range (16), and nothing was read.
#[derive(Clone, Copy, Debug, PartialEq, Eq, Hash)]
pub enum ReadError {
    Failed,
    WrongSize,
    OutOfRange,
}

impl From<io::Error> for ReadError {
    ghost from_gives = { λ _ e. e ≡ Failed };

    fn from(_e: io::Error) -> ReadError {
        ReadError::Failed
    }
}

pub const BUFFER_SIZE: usize = 65536;

// An input of so many bytes counts as one that failed.
const MOST: u64 = 9223372036854775808;

// One read behind the first `have` bytes of the buffer, which stay.
fn fill<R: Read>(stdin: &mut R, buf: &mut [u8], have: usize) -> io::Result<usize>
    requires { have < length buf.old }
    ensures { OneFill result have buf.old buf.new }
{
    stdin.read(&mut buf[have..])
}

// One read, and what the lines that it ends leave in the tables.
fn one_read<R: Read>(
    stdin: &mut R,
    names: &mut [u8],
    nums: &mut [u32],
    ticks: &mut [u64],
    buf: &mut [u8],
    have: usize,
) -> Result<Step, ReadError>
    requires { (have ≤ carried_most) × (length buf.old ≡ buffer_size) }
    ensures { Stepped result have (tables names.old nums.old ticks.old) buf.old
        (tables names.new nums.new ticks.new) buf.new }
{
    let bytes = fill(stdin, buf, have)?;
    if bytes == 0 {
        take_last(names, nums, ticks, buf, have);
        return Ok(Step { bytes, left: None });
    }
    let left = take_chunk(names, nums, ticks, buf, have + bytes);
    Ok(Step { bytes, left })
}

// Reads until the input ends, a line is refused or a read fails; how many bytes were read.
fn read_to_end<R: Read>(
    stdin: &mut R,
    names: &mut [u8],
    nums: &mut [u32],
    ticks: &mut [u64],
    buf: &mut [u8],
) -> Result<u64, ReadError>
    requires { input_refusal (tables names.old nums.old ticks.old) buf.old ≡ 0 }
    ensures { Taken result (tables names.old nums.old ticks.old) buf.old
        (tables names.new nums.new ticks.new) buf.new }
{
    let mut have: usize = 0;
    let mut total: u64 = 0;
    // no `for`: the bytes that were read are counted, and how many a read brings is known once it is done
    while total < MOST {
        let step = one_read(stdin, names, nums, ticks, buf, have)?;
        total += step.bytes as u64;
        let Some(left) = step.left else {
            return Ok(total);
        };
        have = left;
    }
    Err(ReadError::Failed)
}

// Whether what is lent is of its size and in its range.
fn test_lent(names: &[u8], nums: &[u32], ticks: &[u64], buf: &[u8]) -> Result<(), ReadError>
    ensures { input_number result ≡ Some (input_refusal (tables names.now nums.now ticks.now) buf.now) }
{
    if buf.len() != BUFFER_SIZE {
        return Err(ReadError::WrongSize);
    }
    match table_answer(names, nums, ticks) {
        0 => Ok(()),
        15 => Err(ReadError::WrongSize),
        _ => Err(ReadError::OutOfRange),
    }
}

// All of standard input into the tables as they are, over a buffer of 64 KiB; how many bytes were read.
pub fn read_all<R: Read>(
    stdin: &mut R,
    names: &mut [u8],
    nums: &mut [u32],
    ticks: &mut [u64],
    buf: &mut [u8],
) -> Result<u64, ReadError>
    ensures { Taken result (tables names.old nums.old ticks.old) buf.old
        (tables names.new nums.new ticks.new) buf.new }
{
    test_lent(names, nums, ticks, buf)?;
    read_to_end(stdin, names, nums, ticks, buf)
}
