// Standard input as one trace from a fresh start, and its text: all that the program does but to write it.
ghost use Rattle.std.specs.Prelude.{◌≡◌};
ghost use Rattle.input.specs.Whole.{lent, lent_refusal, are_sized, Answered};

use crate::reads::{BUFFER_SIZE, ReadError, read_all};
use run::report::{TEXT_MOST, report};
use std::io::Read;
use tables::fresh::fresh;
use tables::size::sized;

// How many bytes of the output the text takes, and how many bytes were read.
#[derive(Clone, Copy, Debug, PartialEq, Eq, Hash)]
pub struct Text {
    pub length: usize,
    pub bytes: u64,
}

// Whether the tables, the buffer and the output have their sizes.
fn are_sized(names: usize, nums: usize, ticks: usize, buf: usize, out: usize) -> bool
    ensures { result ≡ are_sized names nums ticks buf out }
{
    sized(names, nums, ticks) & ((buf == BUFFER_SIZE) & (TEXT_MOST <= out))
}

// The text where nothing is refused. It always fits and fresh tables are never refused, so no refusal is ever given here.
fn text_from_fresh<R: Read>(
    stdin: &mut R,
    names: &mut [u8],
    nums: &mut [u32],
    ticks: &mut [u64],
    buf: &mut [u8],
    out: &mut [u8],
) -> Result<Text, ReadError>
    requires { lent_refusal (lent names.old nums.old ticks.old buf.old out.old) ≡ 0 }
    ensures { Answered result (lent names.old nums.old ticks.old buf.old out.old)
        (lent names.new nums.new ticks.new buf.new out.new) }
{
    fresh(names, nums, ticks);
    let bytes = read_all(stdin, names, nums, ticks, buf)?;
    let Ok(length) = report(names, nums, ticks, out) else {
        return Err(ReadError::WrongSize);
    };
    Ok(Text { length, bytes })
}

// The text of standard input at the front of the output. Tables, buffer or output of a wrong size are refused (15), and then nothing is read and nothing
// changed.
pub fn text_of_input<R: Read>(
    stdin: &mut R,
    names: &mut [u8],
    nums: &mut [u32],
    ticks: &mut [u64],
    buf: &mut [u8],
    out: &mut [u8],
) -> Result<Text, ReadError>
    ensures { Answered result (lent names.old nums.old ticks.old buf.old out.old)
        (lent names.new nums.new ticks.new buf.new out.new) }
{
    if !are_sized(names.len(), nums.len(), ticks.len(), buf.len(), out.len()) {
        return Err(ReadError::WrongSize);
    }
    text_from_fresh(stdin, names, nums, ticks, buf, out)
}
