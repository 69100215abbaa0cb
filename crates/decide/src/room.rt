// The refusal 10 of an event line: the room for what it adds.
ghost use Rattle.std.specs.Prelude.{◌≡◌};
ghost use Rattle.rules.specs.Refusals.{exceeds_limit};
ghost use Rattle.decide.specs.PlanCode.{needs_one_in, no_room_in};

use crate::numbers::{is_next, reaches_first};
use lookup::look::{LookedUp, rows_added};
use steps::kind::{is_process, numbers_instance, tracked, with_instances};
use steps::numbers::*;
use tables::entry::*;
use text::size::{CORE_LIMIT, NAME_LIMIT};
use words::code::MTALIMITEXCEEDED;

// Whether an event is a process's mtalimitexceeded.
fn exceeds_limit(kind: u32, word: u32) -> bool
    ensures { result ≡ exceeds_limit kind word }
{
    is_process(kind) & (word == MTALIMITEXCEEDED)
}

// Whether the line needs one more row for its instance. Where there is none, the instance was never seen, or it has terminated and its row was given
// back; which of them it is its number tells.
fn needs_one(nums: &[u32; NUMS_SIZE], s: LookedUp, kind: u32, word: u32, number: u32) -> bool
    ensures { result ≡ needs_one_in nums.now s kind word number }
{
    let row = s.target;
    let instance = s.instance;
    if !with_instances(kind) {
        return false;
    }
    if instance.is_some() {
        return false;
    }
    if exceeds_limit(kind, word) {
        return false;
    }
    if !reaches_first(nums, row, number) {
        return true;
    }
    numbers_instance(kind, word) & is_next(nums, row, number)
}

// 10: whether the names or instances that the line adds don't fit.
#[tactic(auto, unfolding(crate::specs::PlanCode::no_room_in))]
pub(crate) fn no_room(
    nums: &[u32; NUMS_SIZE],
    s: LookedUp,
    kind: u32,
    word: u32,
    number: u32,
) -> bool
    ensures { result ≡ no_room_in nums.now s kind word number }
{
    let source_row = s.source;
    let target_row = s.target;
    let core = rows_added(s.class != NO_CORE, source_row);
    let name = rows_added(tracked(kind), target_row);
    if (NAME_LIMIT as u64) < nums[NAMES] as u64 + core + name {
        return true;
    }
    if (CORE_LIMIT as u64) < nums[CORES] as u64 + core {
        return true;
    }
    if nums[INSTANCES] < INSTANCE_LIMIT {
        return false;
    }
    needs_one(nums, s, kind, word, number)
}
