// The word of each event, written: the event words of 000's sections 2.3.1 to 2.3.7.
ghost use Rattle.std.specs.Prelude.{◌≡◌, length};
ghost use Rattle.text.specs.Put.{put, after};
ghost use Rattle.words.specs.Action.{word_of};

use crate::action::Action;
use text::put::put_bytes;

// An event's word.
#[tactic(auto, unfolding(crate::specs::Action::word_of))]
fn word_of(action: Action) -> &'static [u8]
    ensures { result.now ≡ word_of action }
{
    match action {
        Action::Trigger => b"trigger",
        Action::Activate => b"activate",
        Action::InterruptSuspended => b"interrupt_suspended",
        Action::Mtalimitexceeded => b"mtalimitexceeded",
        Action::Park => b"park",
        Action::Poll => b"poll",
        Action::PollParking => b"poll_parking",
        Action::Preempt => b"preempt",
        Action::Release => b"release",
        Action::ReleaseParking => b"release_parking",
        Action::Resume => b"resume",
        Action::Run => b"run",
        Action::Start => b"start",
        Action::Terminate => b"terminate",
        Action::Wait => b"wait",
        Action::Suspend => b"suspend",
        Action::Schedule => b"schedule",
        Action::Schedulepoint => b"schedulepoint",
        Action::ClearEvent => b"clear_event",
        Action::SetEvent => b"set_event",
        Action::WaitEvent => b"wait_event",
        Action::Read => b"read",
        Action::Write => b"write",
        Action::Assigned => b"assigned",
        Action::Decrement => b"decrement",
        Action::Free => b"free",
        Action::Full => b"full",
        Action::Increment => b"increment",
        Action::Lock => b"lock",
        Action::LockUsed => b"lock_used",
        Action::Overfull => b"overfull",
        Action::Queued => b"queued",
        Action::Released => b"released",
        Action::Requestsemaphore => b"requestsemaphore",
        Action::Unlock => b"unlock",
        Action::UnlockFull => b"unlock_full",
        Action::Used => b"used",
        Action::Waiting => b"waiting",
    }
}

// How many bytes an event's word has.
pub fn word_length(action: Action) -> usize
    ensures { result ≡ length (word_of action) }
{
    word_of(action).len()
}

// Puts an event's word into out from the index at on.
pub fn put_word(action: Action, out: &mut [u8], at: usize) -> usize
    ensures { after result out.new ≡ put out.old at (word_of action) }
{
    put_bytes(word_of(action), out, at)
}
