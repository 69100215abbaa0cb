// The event that bytes name, by the type: the event words of 000's sections 2.3.1 to 2.3.7, read. They are chains and no `match` of byte strings,
// as that of the types is: a match has goals for each byte of each word, and with words as many or as long as these the check did not close them.
ghost use Rattle.std.specs.Prelude.{◌≡◌};
ghost use Rattle.text.specs.Bytes.{same_bytes};
ghost use Rattle.words.specs.Named.{pick};
ghost use Rattle.words.specs.Action.{action_of, action_from, process_actions, runnable_actions, scheduler_actions, os_event_actions};
ghost use Rattle.words.specs.Action.{signal_actions, semaphore_requests, semaphore_states};

use crate::action::Action;
use crate::kind::Kind;
use text::bytes::same;

// action where s is the word w, and other where it is not.
fn action_named(s: &[u8], w: &[u8], action: Action, other: Option<Action>) -> Option<Action>
    ensures { result ≡ pick (same_bytes s.now w.now) (Some action) other }
{
    if same(s, w) { Some(action) } else { other }
}

// The event of T and I alike that s names, or other.
fn process_action(s: &[u8], other: Option<Action>) -> Option<Action>
    ensures { result ≡ action_from process_actions other s.now }
{
    let a = other;
    let a = action_named(s, b"wait", Action::Wait, a);
    let a = action_named(s, b"terminate", Action::Terminate, a);
    let a = action_named(s, b"start", Action::Start, a);
    let a = action_named(s, b"run", Action::Run, a);
    let a = action_named(s, b"resume", Action::Resume, a);
    let a = action_named(s, b"release_parking", Action::ReleaseParking, a);
    let a = action_named(s, b"release", Action::Release, a);
    let a = action_named(s, b"preempt", Action::Preempt, a);
    let a = action_named(s, b"poll_parking", Action::PollParking, a);
    let a = action_named(s, b"poll", Action::Poll, a);
    let a = action_named(s, b"park", Action::Park, a);
    action_named(s, b"activate", Action::Activate, a)
}

// The event of R that s names, or other.
fn runnable_action(s: &[u8], other: Option<Action>) -> Option<Action>
    ensures { result ≡ action_from runnable_actions other s.now }
{
    let a = other;
    let a = action_named(s, b"terminate", Action::Terminate, a);
    let a = action_named(s, b"suspend", Action::Suspend, a);
    let a = action_named(s, b"start", Action::Start, a);
    action_named(s, b"resume", Action::Resume, a)
}

// The event of SCHED that s names, or other.
fn scheduler_action(s: &[u8], other: Option<Action>) -> Option<Action>
    ensures { result ≡ action_from scheduler_actions other s.now }
{
    let a = other;
    let a = action_named(s, b"schedulepoint", Action::Schedulepoint, a);
    action_named(s, b"schedule", Action::Schedule, a)
}

// The event of EVENT that s names, or other.
fn os_event_action(s: &[u8], other: Option<Action>) -> Option<Action>
    ensures { result ≡ action_from os_event_actions other s.now }
{
    let a = other;
    let a = action_named(s, b"wait_event", Action::WaitEvent, a);
    let a = action_named(s, b"set_event", Action::SetEvent, a);
    action_named(s, b"clear_event", Action::ClearEvent, a)
}

// The event of SIG that s names, or other.
fn signal_action(s: &[u8], other: Option<Action>) -> Option<Action>
    ensures { result ≡ action_from signal_actions other s.now }
{
    let a = other;
    let a = action_named(s, b"write", Action::Write, a);
    action_named(s, b"read", Action::Read, a)
}

// The event of SEM that a process causes and that s names, or other.
fn semaphore_request(s: &[u8], other: Option<Action>) -> Option<Action>
    ensures { result ≡ action_from semaphore_requests other s.now }
{
    let a = other;
    let a = action_named(s, b"waiting", Action::Waiting, a);
    let a = action_named(s, b"requestsemaphore", Action::Requestsemaphore, a);
    let a = action_named(s, b"released", Action::Released, a);
    let a = action_named(s, b"queued", Action::Queued, a);
    let a = action_named(s, b"increment", Action::Increment, a);
    let a = action_named(s, b"decrement", Action::Decrement, a);
    action_named(s, b"assigned", Action::Assigned, a)
}

// The event of SEM that is a state of its own and that s names, or other.
fn semaphore_state(s: &[u8], other: Option<Action>) -> Option<Action>
    ensures { result ≡ action_from semaphore_states other s.now }
{
    let a = other;
    let a = action_named(s, b"used", Action::Used, a);
    let a = action_named(s, b"unlock_full", Action::UnlockFull, a);
    let a = action_named(s, b"unlock", Action::Unlock, a);
    let a = action_named(s, b"overfull", Action::Overfull, a);
    let a = action_named(s, b"lock_used", Action::LockUsed, a);
    let a = action_named(s, b"lock", Action::Lock, a);
    let a = action_named(s, b"full", Action::Full, a);
    action_named(s, b"free", Action::Free, a)
}

// The event of the type that s names.
pub fn action_of(kind: Kind, s: &[u8]) -> Option<Action>
    ensures { result ≡ action_of kind s.now }
{
    let no = None;
    match kind {
        Kind::Stimulus => action_named(s, b"trigger", Action::Trigger, no),
        Kind::Task => {
            let a = process_action(s, no);
            action_named(s, b"mtalimitexceeded", Action::Mtalimitexceeded, a)
        }
        Kind::Interrupt => {
            let a = process_action(s, no);
            action_named(s, b"interrupt_suspended", Action::InterruptSuspended, a)
        }
        Kind::Runnable => runnable_action(s, no),
        Kind::Scheduler => scheduler_action(s, no),
        Kind::OsEvent => os_event_action(s, no),
        Kind::Signal => signal_action(s, no),
        Kind::Semaphore => {
            let a = semaphore_request(s, no);
            semaphore_state(s, a)
        }
    }
}
