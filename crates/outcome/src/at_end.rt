// The verdict if the trace ended now, from tables of the right sizes.
ghost use Rattle.std.specs.Prelude.{◌≡◌, ◌-◌};
ghost use Rattle.tables.specs.Entry.{first_time, last_time};
ghost use Rattle.outcome.specs.AtEnd.{verdict_in};

use bill::verdict::Verdict;
use tables::entry::*;

// How much later the last time is than the first.
fn span_in(ticks: &[u64; TICKS_SIZE]) -> u64
    ensures { result ≡ last_time ticks.now - first_time ticks.now }
{
    ticks[LAST].saturating_sub(ticks[FIRST])
}

// The verdict if the trace ended now, from tables of the right sizes.
pub(crate) fn verdict_in(nums: &[u32; NUMS_SIZE], ticks: &[u64; TICKS_SIZE]) -> Verdict
    ensures { result ≡ verdict_in nums.now ticks.now }
{
    let span = span_in(ticks);
    let scale = nums[SCALE];
    if nums[VERDICT] != 0 {
        return Verdict {
            number: nums[VERDICT],
            line: nums[VERDICT_LINE],
            scale,
            span,
        };
    }
    if nums[LINES] == 0 {
        return Verdict {
            number: 2,
            line: 1,
            scale: 0,
            span,
        };
    }
    if scale == 0 {
        return Verdict {
            number: 4,
            line: nums[LINES].wrapping_add(1),
            scale: 0,
            span,
        };
    }
    Verdict {
        number: 0,
        line: 0,
        scale,
        span,
    }
}
