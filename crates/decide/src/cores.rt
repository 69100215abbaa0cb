// The refusal 13 of an event line: its core.
ghost use Rattle.std.specs.Prelude.{◌≡◌, eqb};
ghost use Rattle.tables.specs.Entry.{held_by};
ghost use Rattle.decide.specs.PlanCode.{core_serves, core_broken_in};
ghost use Rattle.decide.specs.Known.{is_holder};

use crate::known::{number_in, standing_in, state_in};
use lookup::look::LookedUp;
use steps::numbers::*;
use tables::entry::*;

// Whether a core's state names the process in row p.
fn names_row(standing: u32, p: usize) -> bool
    ensures { result ≡ eqb standing (held_by p) }
{
    if standing < HELD_FROM {
        return false;
    }
    (standing - HELD_FROM) as usize == p
}

// Whether a core's state and number name the instance n of the process in a row.
fn is_holder(standing: u32, number: u32, process: Option<usize>, n: u32) -> bool
    ensures { result ≡ is_holder standing number process n }
{
    let Some(p) = process else {
        return false;
    };
    names_row(standing, p) & (number == n)
}

// Whether a core in the state standing serves an event of the class. `holder` tells whether the event's
// instance holds it, `first` whether that is seen for the first time.
fn core_serves(class: u32, standing: u32, holder: bool, first: bool) -> bool
    ensures { result ≡ core_serves class standing holder first }
{
    if class == TAKES_CORE {
        return standing <= IDLE_CORE;
    }
    if standing == 0 {
        return first;
    }
    holder
}

// 13: whether the core rule is broken.
pub(crate) fn core_broken(nums: &[u32; NUMS_SIZE], s: LookedUp, kind: u32, number: u32) -> bool
    ensures { result ≡ core_broken_in nums.now s kind number }
{
    if s.class == NO_CORE {
        return false;
    }
    let row = s.source;
    let process = s.target;
    let standing = standing_in(nums, row);
    let holder = is_holder(standing, number_in(nums, row), process, number);
    let first = state_in(nums, s, kind) == 0;
    !core_serves(s.class, standing, holder, first)
}
