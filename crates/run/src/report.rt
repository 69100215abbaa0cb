// What is printed of a trace that ends now: the verdict, and the sheet of one that is accepted.
ghost use Rattle.std.specs.Prelude.{◌≡◌, cond, [], ◌≤◌, eqb, length, take};
ghost use Rattle.text.specs.Refusal.{numbered};
ghost use Rattle.run.specs.Report.{reported, outcome_printed, report_written};

use bill::verdict::{put_verdict, verdict_length};
use outcome::now::{Outcome, SHEET_MOST, outcome_now};
use text::put::{put_bytes, room};
use text::refusal::Refusal;

// No text is longer, as specs/Report.antt has it: `report_fits`.
pub const TEXT_MOST: usize = SHEET_MOST + 55;

// How many bytes of the sheet are printed: a refused trace has one line.
fn sheet_printed(o: Outcome, sheet: &[u8]) -> usize
    ensures { (result ≤ length sheet.now)
        × (take result sheet.now ≡ cond (eqb o.verdict.number 0) (take o.length sheet.now) []) }
{
    if o.verdict.number != 0 {
        return 0;
    }
    o.length.min(sheet.len())
}

// The text of an outcome, whose sheet stands at the front of the bytes lent, at the front of the output; how long it is.
pub fn put_outcome(o: Outcome, sheet: &[u8], out: &mut [u8]) -> Result<usize, Refusal>
    ensures { reported (numbered result) out.new ≡ outcome_printed o sheet.now out.old }
{
    let n = verdict_length(o.verdict);
    let m = sheet_printed(o, sheet);
    if !room(out.len(), n, m) {
        return Err(Refusal::Size);
    }
    let next = put_verdict(o.verdict, out, 0);
    let end = put_bytes(&sheet[..m], out, next);
    Ok(end)
}

// The text of the trace that ends now, at the front of the output: one question, and what it answers is printed. The sheet is filled into memory of its own, since the verdict
// stands before it.
pub fn report(names: &[u8], nums: &[u32], ticks: &[u64], out: &mut [u8]) -> Result<usize, Refusal>
    ensures { reported (numbered result) out.new ≡ report_written names.now nums.now ticks.now out.old }
{
    let mut sheet = [0u8; SHEET_MOST];
    let o = outcome_now(names, nums, ticks, &mut sheet);
    match o.verdict.number {
        15 => Err(Refusal::Size),
        16 => Err(Refusal::Range),
        _ => put_outcome(o, &sheet, out),
    }
}
