// What the judge is asked over lent tables, whatever they hold: one line, and the lines of a chunk.
ghost use Rattle.std.specs.Prelude.{◌≡◌};
ghost use Rattle.scan.specs.Ahead.{line_from};
ghost use Rattle.judge.specs.Feed.{tables, after, fed_line, fed_next, chunked, fed_lines, fed_chunk};

use crate::one_line::line_in;
use line::read_next;
use ranges::range::table_answer;
use tables::entry::*;

// The answer to the lines of a chunk, a number as that of `feed` is, and how many bytes they took.
#[derive(Clone, Copy, Debug, PartialEq, Eq)]
pub struct Fed {
    pub answer: u32,
    pub used: usize,
}

// The next line of a chunk from an index on, and where what stands after it begins; where `whole`, what is left is one line as it stands.
fn next_in(
    names: &mut [u8; NAMES_SIZE],
    nums: &mut [u32; NUMS_SIZE],
    ticks: &mut [u64; TICKS_SIZE],
    s: &[u8],
    at: usize,
    whole: bool,
) -> Fed
    ensures { chunked result names.new nums.new ticks.new
        ≡ fed_next (tables names.old nums.old ticks.old) s.now at (line_from whole s.now at) }
{
    let next = read_next(s, at, whole);
    let Some(next) = next else {
        return Fed {
            answer: 0,
            used: at,
        };
    };
    let answer = line_in(names, nums, ticks, &s[at..next.end], next.split);
    Fed {
        answer,
        used: next.start,
    }
}

// Every whole line of a chunk in turn, and how many bytes they took; where `whole`, the chunk is one line as it stands, and the answer is the one to it. Reading and judging is
// called from here alone, so that the compiler can put all of it into this loop.
fn lines_in(
    names: &mut [u8; NAMES_SIZE],
    nums: &mut [u32; NUMS_SIZE],
    ticks: &mut [u64; TICKS_SIZE],
    s: &[u8],
    whole: bool,
) -> Fed
    ensures { chunked result names.new nums.new ticks.new
        ≡ fed_lines whole (tables names.old nums.old ticks.old) s.now }
{
    let mut at = 0;
    // no `for`: a line tells where the next one begins, and the answer to the last is given
    loop {
        let fed = next_in(names, nums, ticks, s, at, whole);
        if whole | (fed.used == at) {
            return fed;
        }
        at = fed.used;
    }
}

// One line without its end. It answers with the number, since that of an earlier refusal is told as it stands in the table.
pub fn feed(names: &mut [u8], nums: &mut [u32], ticks: &mut [u64], l: &[u8]) -> u32
    ensures { after result names.new nums.new ticks.new
        ≡ fed_line (tables names.old nums.old ticks.old) l.now }
{
    let t = table_answer(names, nums, ticks);
    if t != 0 {
        return t;
    }
    let Some(names) = names.as_mut_array::<NAMES_SIZE>() else {
        unreachable!()
    };
    let Some(nums) = nums.as_mut_array::<NUMS_SIZE>() else {
        unreachable!()
    };
    let Some(ticks) = ticks.as_mut_array::<TICKS_SIZE>() else {
        unreachable!()
    };
    let fed = lines_in(names, nums, ticks, l, true);
    fed.answer
}

// Every whole line of a chunk in turn; the tables are tested once.
pub fn feed_chunk(names: &mut [u8], nums: &mut [u32], ticks: &mut [u64], chunk: &[u8]) -> Fed
    ensures { chunked result names.new nums.new ticks.new
        ≡ fed_chunk (tables names.old nums.old ticks.old) chunk.now }
{
    let t = table_answer(names, nums, ticks);
    if t != 0 {
        return Fed { answer: t, used: 0 };
    }
    let Some(names) = names.as_mut_array::<NAMES_SIZE>() else {
        unreachable!()
    };
    let Some(nums) = nums.as_mut_array::<NUMS_SIZE>() else {
        unreachable!()
    };
    let Some(ticks) = ticks.as_mut_array::<TICKS_SIZE>() else {
        unreachable!()
    };
    let fed = lines_in(names, nums, ticks, chunk, false);
    Fed {
        answer: nums[VERDICT],
        used: fed.used,
    }
}
