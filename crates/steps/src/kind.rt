// What the number of a type, and that of an event word with it, says: whether the type has instances or is tracked, whether the event numbers its
// instance, and what it does to a core.
ghost use Rattle.std.specs.Prelude.{◌≡◌};
ghost use Rattle.rules.specs.Charts.{is_process};
ghost use Rattle.rules.specs.Core.{core_class};
ghost use Rattle.rules.specs.History.{has_instances, is_tracked, activates};

use crate::numbers::*;
use words::class::*;
use words::code::*;

// Whether a type is one of the processes: T and I.
pub fn is_process(kind: u32) -> bool
    ensures { result ≡ is_process kind }
{
    (kind == TASK) | (kind == INTERRUPT)
}

// Whether a type has instances: T, I and R.
pub fn with_instances(kind: u32) -> bool
    ensures { result ≡ has_instances kind }
{
    is_process(kind) | (kind == RUNNABLE)
}

// Whether a type's targets are tracked: T, I, R and SEM.
pub fn tracked(kind: u32) -> bool
    ensures { result ≡ is_tracked kind }
{
    with_instances(kind) | (kind == SEMAPHORE)
}

// Whether an event is one that numbers its instance: activate or mtalimitexceeded of a process, start of a runnable.
pub fn numbers_instance(kind: u32, word: u32) -> bool
    ensures { result ≡ activates kind word }
{
    (is_process(kind) & ((word == ACTIVATE) | (word == MTALIMITEXCEEDED)))
        | ((kind == RUNNABLE) & (word == START))
}

// What an event does to a core: nothing where its type is not T or I, and else what its class says.
pub fn core_class(kind: u32, word: u32) -> u32
    ensures { result ≡ core_class kind word }
{
    if !is_process(kind) {
        return NO_CORE;
    }
    let class = class_at(word);
    if (class == BEGINNING) | (class == UNPARKING) {
        return TAKES_CORE;
    }
    if (class == LEAVING) | (class == ENDING) {
        return GIVES_CORE;
    }
    if class == POLLING {
        KEEPS_CORE
    } else {
        NO_CORE
    }
}
