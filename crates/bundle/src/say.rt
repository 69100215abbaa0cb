// What is printed of one trace, taken as a whole: its label and its text.
ghost use Rattle.std.specs.Prelude.{◌≤◌, length};

use outcome::now::SHEET_MOST;
use outcome::whole::outcome_of;
use run::report::{TEXT_MOST, put_outcome};
use std::io::Stdout;
use tables::entry::{NAMES_SIZE, NUMS_SIZE, TICKS_SIZE};

pub(crate) fn say(stdout: Stdout, s: &[u8]) {
    let _ = stdout.write_all(s);
}

// The text of a trace at the front of the output; how long it is. A text that does not come counts as an empty one.
fn put_text(trace: &[u8], out: &mut [u8]) -> usize
    ensures { result ≤ length out.new }
{
    let mut names = [0u8; NAMES_SIZE];
    let mut nums = [0u32; NUMS_SIZE];
    let mut ticks = [0u64; TICKS_SIZE];
    let mut sheet = [0u8; SHEET_MOST];
    let o = outcome_of(&mut names, &mut nums, &mut ticks, trace, &mut sheet);
    let Ok(n) = put_outcome(o, &sheet, out) else {
        return 0;
    };
    n.min(out.len())
}

pub(crate) fn say_trace(stdout: Stdout, label: &[u8], trace: &[u8]) {
    let mut out = [0u8; TEXT_MOST];
    say(stdout, b"trace ");
    say(stdout, label);
    say(stdout, b"\n");
    let n = put_text(trace, &mut out);
    say(stdout, &out[0..n]);
}
