// Where each entry lies: the one place in code that names a base or a size. "Numbers, states and charges lie in lent tables of u32 and u64
// entries", in columns: entry BASE + i.
use steps::numbers::INSTANCE_LIMIT;
use text::name::NAME_MOST;
use text::size::NAME_LIMIT;

// how many rows a column has, by name and by instance, and how many bytes a name
pub const NAME_ROWS: usize = NAME_LIMIT as usize;

pub const INSTANCE_ROWS: usize = INSTANCE_LIMIT as usize;

pub const NAME_ROOM: usize = NAME_MOST;

// how many places the index of the names has
pub const PLACE_ROWS: usize = 512;

// single entries of nums
pub const VERDICT: usize = 0;

pub const VERDICT_LINE: usize = 1;

pub const LINES: usize = 2;

pub const SCALE: usize = 3;

pub const CREATOR: usize = 4;

pub const DATE: usize = 5;

pub const STARTED: usize = 6;

pub const NAMES: usize = 7;

pub const CORES: usize = 8;

pub const INSTANCES: usize = 9;

// columns of nums with an entry for each of 256 names
pub const KIND: usize = 10;

pub const LENGTH: usize = KIND + NAME_ROWS;

pub const STANDING: usize = LENGTH + NAME_ROWS;

pub const NUMBER: usize = STANDING + NAME_ROWS;

pub const NUMBERED: usize = NUMBER + NAME_ROWS;

pub const FIRST_NUMBER: usize = NUMBERED + NAME_ROWS;

// a core's state: idle, or the row of its holder's name and so many more; 0 is unknown
pub const IDLE_CORE: u32 = 1;

pub const HELD_FROM: u32 = 2;

// columns of nums with an entry for each of 1,024 instances
pub const OWNER: usize = FIRST_NUMBER + NAME_ROWS;

pub const INSTANCE: usize = OWNER + INSTANCE_ROWS;

pub const STATE: usize = INSTANCE + INSTANCE_ROWS;

// the index of the names: 0 for a free place, else the row of a name and 1
pub const PLACE: usize = STATE + INSTANCE_ROWS;

pub const PLACES_END: usize = PLACE + PLACE_ROWS;

// single entries of ticks, and its columns with an entry for each of 256 names
pub const FIRST: usize = 0;

pub const LAST: usize = 1;

pub const HELD: usize = 2;

pub const IDLE: usize = HELD + NAME_ROWS;

pub const UNKNOWN: usize = IDLE + NAME_ROWS;

pub const SINCE: usize = UNKNOWN + NAME_ROWS;

// the sizes of the three tables
pub const NAMES_SIZE: usize = NAME_ROOM * NAME_ROWS;

pub const NUMS_SIZE: usize = PLACES_END;

pub const TICKS_SIZE: usize = SINCE + NAME_ROWS;
