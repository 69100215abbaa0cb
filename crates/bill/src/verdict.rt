// The line that tells a verdict.
ghost use Rattle.std.specs.Prelude.{◌≡◌, ◌+◌, ◌≤◌, length};
ghost use Rattle.text.specs.Put.{put, after};
ghost use Rattle.bill.specs.Verdict.{accepted_text, refused_text, verdict_text};

use crate::scale::scale_word;
use text::put::{digit_count, put_bytes, put_number, room};

// The verdict, with the time scale's number and the span.
#[derive(Clone, Copy, Debug, PartialEq, Eq)]
pub struct Verdict {
    pub number: u32,
    pub line: u32,
    pub scale: u32,
    pub span: u64,
}

fn put_accepted(scale: u32, span: u64, out: &mut [u8], at: usize) -> usize
    requires { at + length (accepted_text scale span) ≤ length out.old }
    ensures { after result out.new ≡ put out.old at (accepted_text scale span) }
{
    let one = put_bytes(b"verdict 0 line 0 scale ", out, at);
    let two = put_bytes(scale_word(scale), out, one);
    let three = put_bytes(b" span ", out, two);
    let four = put_number(span, out, three);
    put_bytes(b"\n", out, four)
}

fn put_refused(number: u32, line: u32, out: &mut [u8], at: usize) -> usize
    requires { at + length (refused_text number line) ≤ length out.old }
    ensures { after result out.new ≡ put out.old at (refused_text number line) }
{
    let one = put_bytes(b"verdict ", out, at);
    let two = put_number(number as u64, out, one);
    let three = put_bytes(b" line ", out, two);
    let four = put_number(line as u64, out, three);
    put_bytes(b"\n", out, four)
}

// How many bytes the line takes with its end.
pub fn verdict_length(v: Verdict) -> usize
    ensures { result ≡ length (verdict_text v) }
{
    if v.number == 0 {
        return scale_word(v.scale).len() + digit_count(v.span) + 30;
    }
    digit_count(v.number as u64) + digit_count(v.line as u64) + 15
}

// Puts the line with its end into out from the index at on, and returns the index after it; where it doesn't fit, at, and nothing is written.
pub fn put_verdict(v: Verdict, out: &mut [u8], at: usize) -> usize
    ensures { after result out.new ≡ put out.old at (verdict_text v) }
{
    if !room(out.len(), at, verdict_length(v)) {
        return at;
    }
    if v.number == 0 {
        return put_accepted(v.scale, v.span, out, at);
    }
    put_refused(v.number, v.line, out, at)
}
