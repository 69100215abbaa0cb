// The numbers that stand for kinds and states, as rules/specs/Words.antt has them; those of event words are in `words`. Numbers and no enum:
// the lent tables hold them, and what is public here answers to any number.
pub const CORE: u32 = 1;

pub const TASK: u32 = 2;

pub const INTERRUPT: u32 = 3;

pub const RUNNABLE: u32 = 4;

pub const SEMAPHORE: u32 = 5;

pub const IS_TERMINATED: u32 = 1;

pub const IS_ACTIVE: u32 = 2;

pub const IS_RUNNING: u32 = 3;

pub const IS_READY: u32 = 4;

pub const IS_WAITING: u32 = 5;

pub const IS_POLLING: u32 = 6;

pub const IS_PARKING: u32 = 7;

pub const IS_SUSPENDED: u32 = 8;

pub const IS_FREE: u32 = 1;

pub const IS_USED: u32 = 2;

pub const IS_FULL: u32 = 3;

pub const IS_OVERFULL: u32 = 4;

// how many lines a trace has at most, and the line of a verdict, as rules/specs/Limits.antt has them
pub const LINE_LIMIT: u32 = 1000000000;

pub const VERDICT_LINE_LIMIT: u32 = LINE_LIMIT + 1;

// how many instances are tracked at most
pub const INSTANCE_LIMIT: u32 = 1024;

// the highest refusal that is remembered
pub const LAST_REFUSAL: u32 = 14;

// what an event does to a core, as rules/specs/Core.antt has it
pub const NO_CORE: u32 = 0;

pub const TAKES_CORE: u32 = 1;

pub const GIVES_CORE: u32 = 2;

pub const KEEPS_CORE: u32 = 3;
