// One turn of reading: the whole lines of the buffer are fed, and the unfinished one goes to its front.
ghost use Rattle.std.specs.Prelude.{◌≡◌, ◌+◌, ◌≤◌, length, take, drop};
ghost use Rattle.text.specs.Put.{written};
ghost use Rattle.judge.specs.Feed.{tables};
ghost use Rattle.run.specs.Chunk.{turned, carried_over, chunk_taken, last_taken};

use judge::feed::{feed, feed_chunk};
use line::reading::LINE_MOST;

// the longest unfinished line that is kept, as specs/Chunk.antt has it
const CARRIED_MOST: usize = LINE_MOST + 1;

// Moves the n bytes from the index at on to the front.
fn shift(buf: &mut [u8], at: usize, n: usize)
    requires { at + n ≤ length buf.old }
    ensures { buf.new ≡ written buf.old 0 (take n (drop at buf.old)) }
{
    buf.copy_within(at..at + n, 0);
}

// What is left of a chunk: it goes to the front, and where no line can be so long it is fed as one, which is refused.
fn carry_over(
    names: &mut [u8],
    nums: &mut [u32],
    ticks: &mut [u64],
    buf: &mut [u8],
    used: usize,
    left: usize,
) -> Option<usize>
    requires { used + left ≤ length buf.old }
    ensures { turned result names.new nums.new ticks.new buf.new
        ≡ carried_over (tables names.old nums.old ticks.old) (take left (drop used buf.old)) buf.old }
{
    if CARRIED_MOST < left {
        let end = used + left;
        feed(names, nums, ticks, &buf[used..end]);
        return None;
    }
    shift(buf, used, left);
    Some(left)
}

// Feeds the whole lines of the first n bytes of the buffer, or of all of them where it has no n.
pub fn take_chunk(
    names: &mut [u8],
    nums: &mut [u32],
    ticks: &mut [u64],
    buf: &mut [u8],
    n: usize,
) -> Option<usize>
    ensures { turned result names.new nums.new ticks.new buf.new
        ≡ chunk_taken (tables names.old nums.old ticks.old) buf.old n }
{
    let end = n.min(buf.len());
    let fed = feed_chunk(names, nums, ticks, &buf[..end]);
    if fed.answer != 0 {
        return None;
    }
    let used = fed.used;
    let left = end - used;
    carry_over(names, nums, ticks, buf, used, left)
}

// At the end of input: what was carried over is the last line, where there is any.
#[tactic(auto, using(crate::proofs::Turns::front_min), unfolding(crate::specs::Chunk::last_taken))]
pub fn take_last(names: &mut [u8], nums: &mut [u32], ticks: &mut [u64], buf: &[u8], n: usize)
    ensures { tables names.new nums.new ticks.new
        ≡ last_taken (tables names.old nums.old ticks.old) buf.now n }
{
    if n == 0 {
        return;
    }
    let end = n.min(buf.len());
    feed(names, nums, ticks, &buf[..end]);
}
