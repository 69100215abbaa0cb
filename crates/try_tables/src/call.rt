// Steps that lend the tables to a function.
use crate::buffers::{Buffers, NAMES_ROOM, NUMS_ROOM, TICKS_ROOM};
use crate::compare::same_buffers;
use crate::output::{OUTPUT_ROOM, blank, say_output};
use crate::say::{say, say_answer, say_change, say_fed, say_outcome};
use crate::step::{first_of, numbers_of, rest_of};
use crate::word::Call;
use judge::feed::{feed, feed_chunk};
use outcome::now::{Outcome, outcome_now};
use outcome::whole::outcome_of;
use std::io::Stdout;
use tables::fresh::fresh;

// Prints an outcome, and returns how long the sheet is.
fn told(stdout: Stdout, o: Outcome) -> usize {
    say_outcome(stdout, o);
    o.length
}

// Calls the function that a step names, prints what it answers, and returns how many bytes of the output are the sheet.
fn call_named(
    stdout: Stdout,
    names: &mut [u8],
    nums: &mut [u32],
    ticks: &mut [u64],
    out: &mut [u8],
    call: Call,
    text: &[u8],
) -> usize {
    match call {
        Call::Fresh => say_answer(stdout, fresh(names, nums, ticks)),
        Call::Feed => say_answer(stdout, feed(names, nums, ticks, text)),
        Call::Chunk => say_fed(stdout, feed_chunk(names, nums, ticks, text)),
        Call::Ask | Call::Sheet => return told(stdout, outcome_now(names, nums, ticks, out)),
        Call::Trace => {
            return told(stdout, outcome_of(names, nums, ticks, rest_of(text), out));
        }
    }
    0
}

// Lends the first entries of copies of the buffers, and compares the copies with the buffers, the entries that were not lent too: none of those may
// change either. So it is with the output, of which as many bytes are lent as the step says.
pub(crate) fn run_call(stdout: Stdout, t: Buffers, call: Call, step: &[u8]) -> Buffers {
    let mut names = t.names;
    let mut nums = t.nums;
    let mut ticks = t.ticks;
    let mut out = blank();
    let n = numbers_of(step);
    let a = t.names_lent.min(NAMES_ROOM);
    let b = t.nums_lent.min(NUMS_ROOM);
    let c = t.ticks_lent.min(TICKS_ROOM);
    let d = (n.first as usize).min(OUTPUT_ROOM);
    say(stdout, first_of(step));
    let length = call_named(
        stdout,
        &mut names[0..a],
        &mut nums[0..b],
        &mut ticks[0..c],
        &mut out[0..d],
        call,
        rest_of(step),
    );
    let after = Buffers {
        names,
        nums,
        ticks,
        names_lent: a,
        nums_lent: b,
        ticks_lent: c,
    };
    say_change(stdout, same_buffers(&t, &after));
    say_output(stdout, out, length, call);
    after
}
