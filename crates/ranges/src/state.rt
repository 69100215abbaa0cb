// The states of the kinds, as their charts have them.
ghost use Rattle.std.specs.Prelude.{◌≡◌, ◌&&◌};
ghost use Rattle.rules.specs.Chart.{is_state_of};
ghost use Rattle.rules.specs.Charts.{process_chart, runnable_chart, semaphore_chart, chart_of};
ghost use Rattle.rules.specs.History.{has_instances};

use steps::kind::is_process;
use steps::numbers::*;

// A process has every state but SUSPENDED.
fn of_process(state: u32) -> bool
    ensures { result ≡ is_state_of process_chart state }
{
    (IS_TERMINATED <= state) & (state <= IS_PARKING)
}

fn of_runnable(state: u32) -> bool
    ensures { result ≡ is_state_of runnable_chart state }
{
    (state == IS_TERMINATED) | ((state == IS_RUNNING) | (state == IS_SUSPENDED))
}

pub(crate) fn of_semaphore(state: u32) -> bool
    ensures { result ≡ is_state_of semaphore_chart state }
{
    (IS_FREE <= state) & (state <= IS_OVERFULL)
}

// Whether an instance of a name of the kind can be in the state. A core and a semaphore have no instances.
pub(crate) fn state_ok(kind: u32, state: u32) -> bool
    ensures { result ≡ has_instances kind && is_state_of (chart_of kind) state }
{
    if is_process(kind) {
        return of_process(state);
    }
    (kind == RUNNABLE) & of_runnable(state)
}
