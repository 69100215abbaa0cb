// The number of each of the 38 events, as specs/Code.antt has them.
ghost use Rattle.std.specs.Prelude.{◌≡◌};
ghost use Rattle.words.specs.Action.{action_code};

use crate::action::Action;

pub const TRIGGER: u32 = Action::Trigger as u32;

pub const ACTIVATE: u32 = Action::Activate as u32;

pub const INTERRUPT_SUSPENDED: u32 = Action::InterruptSuspended as u32;

pub const MTALIMITEXCEEDED: u32 = Action::Mtalimitexceeded as u32;

pub const PARK: u32 = Action::Park as u32;

pub const POLL: u32 = Action::Poll as u32;

pub const POLL_PARKING: u32 = Action::PollParking as u32;

pub const PREEMPT: u32 = Action::Preempt as u32;

pub const RELEASE: u32 = Action::Release as u32;

pub const RELEASE_PARKING: u32 = Action::ReleaseParking as u32;

pub const RESUME: u32 = Action::Resume as u32;

pub const RUN: u32 = Action::Run as u32;

pub const START: u32 = Action::Start as u32;

pub const TERMINATE: u32 = Action::Terminate as u32;

pub const WAIT: u32 = Action::Wait as u32;

pub const SUSPEND: u32 = Action::Suspend as u32;

pub const SCHEDULE: u32 = Action::Schedule as u32;

pub const SCHEDULEPOINT: u32 = Action::Schedulepoint as u32;

pub const CLEAR_EVENT: u32 = Action::ClearEvent as u32;

pub const SET_EVENT: u32 = Action::SetEvent as u32;

pub const WAIT_EVENT: u32 = Action::WaitEvent as u32;

pub const READ: u32 = Action::Read as u32;

pub const WRITE: u32 = Action::Write as u32;

pub const ASSIGNED: u32 = Action::Assigned as u32;

pub const DECREMENT: u32 = Action::Decrement as u32;

pub const FREE: u32 = Action::Free as u32;

pub const FULL: u32 = Action::Full as u32;

pub const INCREMENT: u32 = Action::Increment as u32;

pub const LOCK: u32 = Action::Lock as u32;

pub const LOCK_USED: u32 = Action::LockUsed as u32;

pub const OVERFULL: u32 = Action::Overfull as u32;

pub const QUEUED: u32 = Action::Queued as u32;

pub const RELEASED: u32 = Action::Released as u32;

pub const REQUESTSEMAPHORE: u32 = Action::Requestsemaphore as u32;

pub const UNLOCK: u32 = Action::Unlock as u32;

pub const UNLOCK_FULL: u32 = Action::UnlockFull as u32;

pub const USED: u32 = Action::Used as u32;

pub const WAITING: u32 = Action::Waiting as u32;

// The code of an event: its place among the 38, in the order of 000's sections.
pub fn action_code(action: Action) -> u32
    ensures { result ≡ action_code action }
{
    // nothing else holds the numbers that no rule asks for
    prove!(
        TRIGGER == 0
            && SCHEDULE == 16
            && SCHEDULEPOINT == 17
            && CLEAR_EVENT == 18
            && SET_EVENT == 19
            && WAIT_EVENT == 20
            && READ == 21
            && WRITE == 22
            && ASSIGNED == 23
            && QUEUED == 31
            && RELEASED == 32
            && REQUESTSEMAPHORE == 33
    );
    action as u32
}
