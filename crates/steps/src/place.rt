// A line in its place: the refusals 1 to 7 from its reading and what the lines before it said.
ghost use Rattle.std.specs.Prelude.{◌≡◌, cond, leb};
ghost use Rattle.steps.specs.PlaceCode.{needs_scale, first_answer, read_answer, repeated_or_late, answer_by_reading};

use crate::numbers::LINE_LIMIT;
use line::reading::Reading;
use rules::place::Place;

// 3 for a parameter that was given before or comes after the first event.
fn repeated_or_late(seen: bool, late: bool) -> u32
    ensures { result ≡ repeated_or_late seen late }
{
    if seen {
        return 3;
    }
    if late { 3 } else { 0 }
}

// 4 for an event line without a time scale before it, else n.
fn needs_scale(scale: u32, n: u32) -> u32
    ensures { result ≡ needs_scale scale n }
{
    if scale == 0 { 4 } else { n }
}

// A refused reading's own number, but 4 comes before 5, 6 and 7.
fn refused_answer(scale: u32, n: u32) -> u32
    ensures { result ≡ cond (leb n 3) n (needs_scale scale n) }
{
    if n <= 3 {
        return n;
    }
    needs_scale(scale, n)
}

// The answer to the first line.
fn first_answer(r: Reading) -> u32
    ensures { result ≡ first_answer r }
{
    match r {
        Reading::Version => 0,
        Reading::Comment => 2,
        Reading::TimeScale(_) => 2,
        Reading::Creator => 2,
        Reading::CreationDate => 2,
        Reading::EventLine(_, _) => 2,
        Reading::Refused(n) => {
            if n == 1 {
                return 1;
            }
            2
        }
    }
}

// The answer to a later line.
fn later_answer(p: Place, r: Reading) -> u32
    ensures { result ≡ read_answer p r }
{
    match r {
        Reading::Version => 2,
        Reading::Comment => 0,
        Reading::TimeScale(_) => repeated_or_late(p.scale != 0, p.started),
        Reading::Creator => repeated_or_late(p.creator, p.started),
        Reading::CreationDate => repeated_or_late(p.date, p.started),
        Reading::EventLine(_, _) => needs_scale(p.scale, 0),
        Reading::Refused(n) => refused_answer(p.scale, n as u32),
    }
}

// The lowest of 1 to 7 that applies to a line in its place, 0 where none does.
pub fn answer_in_place(p: Place, r: Reading) -> u32
    ensures { result ≡ answer_by_reading p r }
{
    if LINE_LIMIT <= p.lines {
        return 1;
    }
    if p.lines == 0 {
        return first_answer(r);
    }
    later_answer(p, r)
}
