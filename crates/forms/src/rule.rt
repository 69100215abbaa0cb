// The rules on sources, instances and the presence of a note.
#![tactic(auto, unfolding(crate::specs::Rule::is_process, crate::specs::Rule::zero_target, crate::specs::Rule::source_broken, crate::specs::Rule::target_broken, crate::specs::Rule::own_broken, crate::specs::Rule::rule_broken))]

ghost use Rattle.std.specs.Prelude.{◌≡◌};
ghost use Rattle.forms.specs.Rule.{is_process, zero_source, zero_target, is_own, source_broken, target_broken, own_broken, note_broken, rule_broken};

use text::bytes::same;
use words::action::Action;
use words::class::*;
use words::kind::Kind;

// Whether a type is T or I. A line is read before its type has a number in the rules, so that the type itself is asked.
fn process(kind: Kind) -> bool
    ensures { result ≡ is_process kind }
{
    matches!(kind, Kind::Task | Kind::Interrupt)
}

// Whether the source instance has to be 0.
fn zero_source(kind: Kind, action: Action) -> bool
    ensures { result ≡ zero_source kind action }
{
    let class = class_of(action);
    (process(kind) & ((READYING <= class) & (class <= BEGINNING)))
        | ((class == INTERRUPT_SUSPENSION) | (class == SCHEDULING))
}

// Whether the target instance has to be 0.
fn zero_target(kind: Kind) -> bool
    ensures { result ≡ zero_target kind }
{
    matches!(
        kind,
        Kind::Scheduler | Kind::OsEvent | Kind::Signal | Kind::Semaphore
    )
}

// Whether the event is one of its target's own: schedule, and a semaphore's state events.
fn targets_own(action: Action) -> bool
    ensures { result ≡ is_own action }
{
    let class = class_of(action);
    (class == SCHEDULING) | (class == SEMAPHORE_STATE)
}

// Whether the source instance is not 0 where it has to be.
fn source_broken(kind: Kind, action: Action, instance: u32) -> bool
    ensures { result ≡ source_broken kind action instance }
{
    zero_source(kind, action) & (instance != 0)
}

// Whether the target instance is not 0 where it has to be.
fn target_broken(kind: Kind, instance: u32) -> bool
    ensures { result ≡ target_broken kind instance }
{
    zero_target(kind) & (instance != 0)
}

// Whether an event of its target's own has another source, or an instance that is not 0.
fn own_broken(
    action: Action,
    source: &[u8],
    source_instance: u32,
    target: &[u8],
    target_instance: u32,
) -> bool
    ensures { result ≡ own_broken action source.now source_instance target.now target_instance }
{
    targets_own(action) && (source_instance != 0 || target_instance != 0 || !same(source, target))
}

// Whether a note is missing where one is required, or there where none may be; n is its length, and 0 where there is none.
fn note_broken(kind: Kind, action: Action, n: usize) -> bool
    ensures { result ≡ note_broken kind action n }
{
    if class_of(action) == EVENT_SETTING {
        return n == 0;
    }
    match kind {
        Kind::Signal => false,
        Kind::Semaphore => n == 0,
        _ => n != 0,
    }
}

// Whether an event breaks a rule on its source, its instances or the presence of its note.
pub fn rule_broken(
    kind: Kind,
    action: Action,
    source: &[u8],
    source_instance: u32,
    target: &[u8],
    target_instance: u32,
    note: &[u8],
) -> bool
    ensures { result ≡ rule_broken kind action
        source.now source_instance target.now target_instance note.now }
{
    source_broken(kind, action, source_instance)
        | (target_broken(kind, target_instance)
            | (own_broken(action, source, source_instance, target, target_instance)
                | note_broken(kind, action, note.len())))
}
