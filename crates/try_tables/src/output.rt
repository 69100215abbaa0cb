// The output that is lent for the sheet.
use crate::say::say;
use crate::word::Call;
use outcome::now::SHEET_MOST;
use std::io::Stdout;

// One byte more than any sheet has, so that one is left that is not lent.
pub(crate) const OUTPUT_ROOM: usize = SHEET_MOST + 1;

// The output before a call: one byte all over, so that whatever is written shows.
pub(crate) fn blank() -> [u8; OUTPUT_ROOM] {
    [b'.'; OUTPUT_ROOM]
}

// Ends the line that tells of a call: no byte past the sheet may change, those that were not lent too. Then the sheet, where it is to be printed.
pub(crate) fn say_output(stdout: Stdout, out: [u8; OUTPUT_ROOM], length: usize, call: Call) {
    let before = blank();
    let end = length.min(OUTPUT_ROOM);
    if out[end..] != before[end..] {
        say(stdout, b" output changed");
    }
    say(stdout, b"\n");
    if call == Call::Sheet {
        say(stdout, &out[0..end]);
    }
}
