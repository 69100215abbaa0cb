// The eight types of a target: their words, read and written.
ghost use Rattle.std.specs.Prelude.{◌≡◌, length};
ghost use Rattle.text.specs.Put.{put, after};
ghost use Rattle.words.specs.Kind.{kind_of, kind_word};

use text::put::put_bytes;

#[derive(Clone, Copy, Debug, PartialEq, Eq)]
pub enum Kind {
    Stimulus,
    Task,
    Interrupt,
    Runnable,
    Scheduler,
    OsEvent,
    Signal,
    Semaphore,
}

// The type that s names.
#[tactic(auto, using(std::proofs::lemmas::Grind::common_steps, crate::proofs::Matched::read_bytes), unfolding(crate::specs::Kind::kind_of, crate::specs::Kind::kind_word, crate::specs::Named::pick))]
pub fn kind_of(s: &[u8]) -> Option<Kind>
    ensures { result ≡ kind_of s.now }
{
    match s {
        b"STI" => Some(Kind::Stimulus),
        b"T" => Some(Kind::Task),
        b"I" => Some(Kind::Interrupt),
        b"R" => Some(Kind::Runnable),
        b"SCHED" => Some(Kind::Scheduler),
        b"EVENT" => Some(Kind::OsEvent),
        b"SIG" => Some(Kind::Signal),
        b"SEM" => Some(Kind::Semaphore),
        _ => None,
    }
}

// A type's word.
#[tactic(auto, unfolding(crate::specs::Kind::kind_word))]
fn kind_word(kind: Kind) -> &'static [u8]
    ensures { result.now ≡ kind_word kind }
{
    match kind {
        Kind::Stimulus => b"STI",
        Kind::Task => b"T",
        Kind::Interrupt => b"I",
        Kind::Runnable => b"R",
        Kind::Scheduler => b"SCHED",
        Kind::OsEvent => b"EVENT",
        Kind::Signal => b"SIG",
        Kind::Semaphore => b"SEM",
    }
}

// How many bytes a type's word has.
pub fn kind_length(kind: Kind) -> usize
    ensures { result ≡ length (kind_word kind) }
{
    kind_word(kind).len()
}

// Puts a type's word into out from the index at on.
pub fn put_kind(kind: Kind, out: &mut [u8], at: usize) -> usize
    ensures { after result out.new ≡ put out.old at (kind_word kind) }
{
    put_bytes(kind_word(kind), out, at)
}
