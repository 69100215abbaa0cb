// The classes of events that the rules tell apart, so that each rule is one small test and not one for each of the 38 words.
ghost use Rattle.std.specs.Prelude.{◌≡◌};
ghost use Rattle.words.specs.Action.{is_of};
ghost use Rattle.words.specs.Class.{class_at, class_of, class_is_of};

use crate::action::Action;
use crate::code::{WAITING, action_code};
use crate::kind::Kind;

// The numbers of the classes, as specs/Class.antt has them.
pub const NO_CLASS: u8 = 0;

pub const STIMULATION: u8 = 1;

pub const LIMIT_EXCEEDED: u8 = 2;

pub const ACTIVATION: u8 = 3;

pub const READYING: u8 = 4;

pub const POLLING: u8 = 5;

pub const LEAVING: u8 = 6;

pub const UNPARKING: u8 = 7;

pub const ENDING: u8 = 8;

pub const BEGINNING: u8 = 9;

pub const SUSPENSION: u8 = 10;

pub const INTERRUPT_SUSPENSION: u8 = 11;

pub const SCHEDULING: u8 = 12;

pub const SCHEDULE_POINT: u8 = 13;

pub const EVENT_USE: u8 = 14;

pub const EVENT_SETTING: u8 = 15;

pub const SIGNAL_USE: u8 = 16;

pub const SEMAPHORE_REQUEST: u8 = 17;

pub const SEMAPHORE_STATE: u8 = 18;

// The class of each event, in the order of the codes.
const CLASSES: [u8; 38] = [
    STIMULATION,
    ACTIVATION,
    INTERRUPT_SUSPENSION,
    LIMIT_EXCEEDED,
    LEAVING,
    POLLING,
    UNPARKING,
    LEAVING,
    READYING,
    READYING,
    BEGINNING,
    POLLING,
    BEGINNING,
    ENDING,
    LEAVING,
    SUSPENSION,
    SCHEDULING,
    SCHEDULE_POINT,
    EVENT_USE,
    EVENT_SETTING,
    EVENT_USE,
    SIGNAL_USE,
    SIGNAL_USE,
    SEMAPHORE_REQUEST,
    SEMAPHORE_REQUEST,
    SEMAPHORE_STATE,
    SEMAPHORE_STATE,
    SEMAPHORE_REQUEST,
    SEMAPHORE_STATE,
    SEMAPHORE_STATE,
    SEMAPHORE_STATE,
    SEMAPHORE_REQUEST,
    SEMAPHORE_REQUEST,
    SEMAPHORE_REQUEST,
    SEMAPHORE_STATE,
    SEMAPHORE_STATE,
    SEMAPHORE_STATE,
    SEMAPHORE_REQUEST,
];

// The class of the event of a code; NO_CLASS where no event has it.
pub fn class_at(code: u32) -> u8
    ensures { result ≡ class_at code }
{
    if WAITING < code {
        return NO_CLASS;
    }
    let at = code as usize;
    CLASSES[at]
}

// The class of an event.
pub fn class_of(action: Action) -> u8
    ensures { result ≡ class_of action }
{
    class_at(action_code(action))
}

// Whether the events of a class are events of a type.
fn class_is_of(kind: Kind, class: u8) -> bool
    ensures { result ≡ class_is_of kind class }
{
    match kind {
        Kind::Stimulus => class == STIMULATION,
        Kind::Task => (LIMIT_EXCEEDED <= class) & (class <= BEGINNING),
        Kind::Interrupt => {
            (class == INTERRUPT_SUSPENSION) | ((ACTIVATION <= class) & (class <= BEGINNING))
        }
        Kind::Runnable => (ENDING <= class) & (class <= SUSPENSION),
        Kind::Scheduler => (class == SCHEDULING) | (class == SCHEDULE_POINT),
        Kind::OsEvent => (class == EVENT_USE) | (class == EVENT_SETTING),
        Kind::Signal => class == SIGNAL_USE,
        Kind::Semaphore => (class == SEMAPHORE_REQUEST) | (class == SEMAPHORE_STATE),
    }
}

// Whether an event is one of a type.
pub fn is_of(kind: Kind, action: Action) -> bool
    ensures { result ≡ is_of kind action }
{
    class_is_of(kind, class_of(action))
}
