// The sizes that both the crates of traces and those of sheets ask for, as specs/Sizes.antt has them.
// the latest time, and the longest span
pub const MAX_TIME: u64 = 72057594037927935;

// how many names, and cores among them, are tracked or listed at most
pub const NAME_LIMIT: u32 = 256;

pub const CORE_LIMIT: u32 = 64;
