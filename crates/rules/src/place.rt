// What the lines before say to the next one.

// How many lines were taken, the number of the time scale (0 where there is none yet), and whether a creator, a creation date, an event was
// given.
#[derive(Clone, Copy, Debug, PartialEq, Eq)]
pub struct Place {
    pub lines: u32,
    pub scale: u32,
    pub creator: bool,
    pub date: bool,
    pub started: bool,
}
