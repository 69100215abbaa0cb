// The code of a chart step: one search over rows of three numbers (event word, state left, state entered), and the three charts as such rows.
ghost use Rattle.std.specs.Prelude.{◌≡◌};
ghost use Rattle.rules.specs.Charts.{process_chart, runnable_chart, semaphore_chart, chart_of};
ghost use Rattle.steps.specs.Rows.{row_serves, entered_in, move_in, move_by};

use crate::numbers::*;
use words::code::*;

const PROCESS: [[u32; 3]; 14] = [
    [ACTIVATE, IS_TERMINATED, IS_ACTIVE],
    [START, IS_ACTIVE, IS_RUNNING],
    [PREEMPT, IS_RUNNING, IS_READY],
    [RESUME, IS_READY, IS_RUNNING],
    [WAIT, IS_RUNNING, IS_WAITING],
    [RELEASE, IS_WAITING, IS_READY],
    [TERMINATE, IS_RUNNING, IS_TERMINATED],
    [POLL, IS_RUNNING, IS_POLLING],
    [RUN, IS_POLLING, IS_RUNNING],
    [PARK, IS_POLLING, IS_PARKING],
    [POLL_PARKING, IS_PARKING, IS_POLLING],
    [RELEASE_PARKING, IS_PARKING, IS_READY],
    [MTALIMITEXCEEDED, IS_TERMINATED, IS_TERMINATED],
    [INTERRUPT_SUSPENDED, IS_ACTIVE, IS_ACTIVE],
];

const RUNNABLES: [[u32; 3]; 4] = [
    [START, IS_TERMINATED, IS_RUNNING],
    [SUSPEND, IS_RUNNING, IS_SUSPENDED],
    [RESUME, IS_SUSPENDED, IS_RUNNING],
    [TERMINATE, IS_RUNNING, IS_TERMINATED],
];

const SEMAPHORES: [[u32; 3]; 10] = [
    [FREE, IS_USED, IS_FREE],
    [UNLOCK, IS_FULL, IS_FREE],
    [LOCK, IS_FREE, IS_FULL],
    [LOCK_USED, IS_USED, IS_FULL],
    [FULL, IS_OVERFULL, IS_FULL],
    [OVERFULL, IS_FULL, IS_OVERFULL],
    [OVERFULL, IS_OVERFULL, IS_OVERFULL],
    [UNLOCK_FULL, IS_FULL, IS_USED],
    [USED, IS_FREE, IS_USED],
    [USED, IS_USED, IS_USED],
];

// Whether the row is one for the word in the state; 0 is any state.
fn row_serves(row: &[u32; 3], word: u32, state: u32) -> bool
    ensures { result ≡ row_serves row.now word state }
{
    (word == row[0]) & ((state == 0) | (state == row[1]))
}

// The state that the first such row enters, 0 where there is none.
fn entered(rows: &[[u32; 3]], word: u32, state: u32) -> u32
    ensures { result ≡ entered_in rows.now word state }
{
    for row in rows {
        if row_serves(row, word, state) {
            return row[2];
        }
    }
    0
}

// The state, 0 for none yet, that the word leads to from a state by the rows of a chart; nothing where the chart does not allow it. A word that no row has changes nothing.
fn step(rows: &[[u32; 3]], word: u32, state: u32) -> Option<u32>
    ensures { result ≡ move_in rows.now word state }
{
    let next = entered(rows, word, state);
    if next != 0 {
        return Some(next);
    }
    if entered(rows, word, 0) == 0 {
        return Some(state);
    }
    None
}

// One for each chart, and none over a chart that is given: each is public and has its chart in its contract.
pub fn process_step(word: u32, state: u32) -> Option<u32>
    ensures { result ≡ move_by process_chart word state }
{
    step(&PROCESS, word, state)
}

pub fn runnable_step(word: u32, state: u32) -> Option<u32>
    ensures { result ≡ move_by runnable_chart word state }
{
    step(&RUNNABLES, word, state)
}

pub fn semaphore_step(word: u32, state: u32) -> Option<u32>
    ensures { result ≡ move_by semaphore_chart word state }
{
    step(&SEMAPHORES, word, state)
}

// The same by the chart of the type.
pub fn chart_step(kind: u32, word: u32, state: u32) -> Option<u32>
    ensures { result ≡ move_by (chart_of kind) word state }
{
    if kind == TASK {
        return process_step(word, state);
    }
    if kind == INTERRUPT {
        return process_step(word, state);
    }
    if kind == RUNNABLE {
        return runnable_step(word, state);
    }
    if kind == SEMAPHORE {
        return semaphore_step(word, state);
    }
    Some(state)
}
