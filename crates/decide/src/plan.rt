// What becomes of an event line, from the tables as they are: the lowest of 8 to 14 that applies, or that it is taken. Nothing is stored here.
ghost use Rattle.std.specs.Prelude.{◌≡◌};
ghost use Rattle.text.specs.Refusal.{numbered};
ghost use Rattle.rules.specs.Lines.{event_from};
ghost use Rattle.decide.specs.Decide.{plan_of, decided};
ghost use Rattle.decide.specs.PlanCode.{time_falls_in, steps_plan};

use crate::cores::core_broken;
use crate::known::state_in;
use crate::names::{source_clash, target_clash};
use crate::numbers::{count_broken, never_activated, not_next};
use crate::room::no_room;
use line::event::Event;
use lookup::look::{LookedUp, look};
use steps::chart::chart_step;
use steps::lines::kind_number;
use tables::entry::*;
use text::refusal::Refusal;
use words::code::action_code;

// 8: whether the time is less than that of the event line before.
fn time_falls(nums: &[u32; NUMS_SIZE], ticks: &[u64; TICKS_SIZE], time: u64) -> bool
    ensures { result ≡ time_falls_in nums.now ticks.now time }
{
    if nums[STARTED] == 0 {
        return false;
    }
    time < ticks[LAST]
}

// What becomes of an event line by its chart, its number, its core and its count: it is taken with what was looked up for it, and with the state that its semaphore or instance
// enters.
fn decide_steps(
    nums: &[u32; NUMS_SIZE],
    s: LookedUp,
    kind: u32,
    word: u32,
    number: u32,
    count: u32,
) -> Result<(LookedUp, u32), Refusal>
    ensures { numbered result ≡ steps_plan nums.now s kind word number count }
{
    let m = chart_step(kind, word, state_in(nums, s, kind));
    let Some(state) = m else {
        return Err(Refusal::Chart);
    };
    if never_activated(nums, s, kind, word, number) {
        return Err(Refusal::Chart);
    }
    if not_next(nums, s, kind, word, number) {
        return Err(Refusal::Instance);
    }
    if core_broken(nums, s, kind, number) {
        return Err(Refusal::Core);
    }
    if count_broken(nums, s, kind, word, count) {
        return Err(Refusal::Count);
    }
    Ok((s, state))
}

// What becomes of an event line by tables of the right sizes: the lowest of 8 to 14 that applies, or that it is taken.
fn decide_in(
    names: &[u8; NAMES_SIZE],
    nums: &[u32; NUMS_SIZE],
    ticks: &[u64; TICKS_SIZE],
    e: Event,
    count: u32,
    source: &[u8],
    target: &[u8],
) -> Result<(LookedUp, u32), Refusal>
    ensures { numbered result ≡ plan_of names.now nums.now ticks.now
        (event_from e source.now target.now count) }
{
    let e_kind = e.kind;
    let action = e.action;
    let kind = kind_number(e_kind);
    let word = action_code(action);
    let s = look(names, nums, kind, word, e.target_instance, source, target);
    if time_falls(nums, ticks, e.time) {
        return Err(Refusal::Time);
    }
    if source_clash(nums, s, source, target) {
        return Err(Refusal::Kind);
    }
    if target_clash(nums, s, kind) {
        return Err(Refusal::Kind);
    }
    if no_room(nums, s, kind, word, e.target_instance) {
        return Err(Refusal::Room);
    }
    decide_steps(nums, s, kind, word, e.target_instance, count)
}

// What becomes of an event line by any tables: 15 where one has a wrong size.
pub fn decide(
    names: &[u8],
    nums: &[u32],
    ticks: &[u64],
    e: Event,
    count: u32,
    source: &[u8],
    target: &[u8],
) -> Result<(LookedUp, u32), Refusal>
    ensures { numbered result ≡ decided names.now nums.now ticks.now
        (event_from e source.now target.now count) }
{
    let Some(names) = names.as_array::<NAMES_SIZE>() else {
        return Err(Refusal::Size);
    };
    let Some(nums) = nums.as_array::<NUMS_SIZE>() else {
        return Err(Refusal::Size);
    };
    let Some(ticks) = ticks.as_array::<TICKS_SIZE>() else {
        return Err(Refusal::Size);
    };
    decide_in(names, nums, ticks, e, count, source, target)
}
