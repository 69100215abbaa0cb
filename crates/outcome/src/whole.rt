// A whole trace in one call: a fresh start, every line, and the one question.
ghost use Rattle.std.specs.Prelude.{◌≡◌, drop};
ghost use Rattle.judge.specs.Feed.{tables};
ghost use Rattle.outcome.specs.Outcome.{rest_fed, traced, lines_outcome, trace_outcome};

use crate::now::{Outcome, outcome_now};
use judge::feed::{feed, feed_chunk};
use tables::fresh::fresh;

// What stands after the whole lines is the last one, where there is any.
fn feed_rest(names: &mut [u8], nums: &mut [u32], ticks: &mut [u64], trace: &[u8], used: usize)
    ensures { tables names.new nums.new ticks.new
        ≡ rest_fed (tables names.old nums.old ticks.old) (drop used trace.now) }
{
    if trace.len() <= used {
        return;
    }
    feed(names, nums, ticks, &trace[used..]);
}

// Every line of a trace, after what the tables hold, and the question.
fn outcome_after(
    names: &mut [u8],
    nums: &mut [u32],
    ticks: &mut [u64],
    trace: &[u8],
    out: &mut [u8],
) -> Outcome
    ensures { traced result out.new names.new nums.new ticks.new
        ≡ lines_outcome (tables names.old nums.old ticks.old) trace.now out.old }
{
    let fed = feed_chunk(names, nums, ticks, trace);
    feed_rest(names, nums, ticks, trace, fed.used);
    outcome_now(names, nums, ticks, out)
}

// The outcome of a trace. Where the tables have not their sizes, each call answers 15 and writes nothing; where the output is too short, the tables are those of the trace, and
// can be asked again.
pub fn outcome_of(
    names: &mut [u8],
    nums: &mut [u32],
    ticks: &mut [u64],
    trace: &[u8],
    out: &mut [u8],
) -> Outcome
    ensures { traced result out.new names.new nums.new ticks.new
        ≡ trace_outcome (tables names.old nums.old ticks.old) trace.now out.old }
{
    fresh(names, nums, ticks);
    outcome_after(names, nums, ticks, trace, out)
}
