// What a note means: a semaphore's count, a signal's value.
#![tactic(auto, unfolding(crate::specs::Note::signal_note))]

ghost use Rattle.std.specs.Prelude.{◌≡◌};
ghost use Rattle.forms.specs.Note.{note_of, count_note, signal_note, is_decimal, is_signal};

use text::bytes::find;
use text::number::{digits, read_number};
use words::kind::Kind;

// A semaphore's note as a count.
fn count_note(s: &[u8]) -> Option<u32>
    ensures { result ≡ count_note s.now }
{
    let count = read_number(s, 4294967295)?;
    Some(count as u32)
}

// Whether s is digits, and optionally a dot and digits.
fn decimal(s: &[u8]) -> bool
    ensures { result ≡ is_decimal s.now }
{
    let dot = find(s, b'.', 0);
    if s.len() <= dot {
        return digits(s);
    }
    if !digits(&s[0..dot]) {
        return false;
    }
    let from = dot + 1;
    digits(&s[from..])
}

// Whether s is a signal's value: an optional minus, digits, and optionally a dot and digits.
fn signal(s: &[u8]) -> bool
    ensures { result ≡ is_signal s.now }
{
    match s {
        [b'-', rest @ ..] => decimal(rest),
        _ => decimal(s),
    }
}

// A signal's note, which means no count.
fn signal_note(s: &[u8]) -> Option<u32>
    ensures { result ≡ signal_note s.now }
{
    signal(s).then_some(0)
}

// The count that a note means at a type, 0 for a note that is no count; nothing where it has not the form its type asks. An empty note is no note.
pub fn note_of(kind: Kind, note: &[u8]) -> Option<u32>
    ensures { result ≡ note_of kind note.now }
{
    if note.is_empty() {
        return Some(0);
    }
    match kind {
        Kind::Signal => signal_note(note),
        Kind::Semaphore => count_note(note),
        _ => Some(0),
    }
}
