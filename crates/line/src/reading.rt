// Reading one line.
ghost use Rattle.std.specs.Prelude.{◌≡◌, true};
ghost use Rattle.text.specs.Name.{all_plain};
ghost use Rattle.fields.specs.Part.{commas_of};
ghost use Rattle.line.specs.Reading.{read_line, split_line, next_reading, has_break, is_event_line};

use crate::event::{Event, read_event};
use crate::parameter::read_parameter;
use fields::part::Commas;
use fields::split;
use scan::reader::next_line;
use text::name::all_plain;
use words::scale::Scale;

// the longest line that is read by its text, as specs/Reading.antt has it
pub const LINE_MOST: usize = 1023;

// What a line is. It is no Result: a refused reading is weighed with its place, where 4 comes before its 5, 6 and 7, and by its number, any u8. An event line's count is what the note of a semaphore's line means, and 0 on any other.
#[derive(Clone, Copy, Debug, PartialEq, Eq)]
pub enum Reading {
    Version,
    Comment,
    TimeScale(Scale),
    Creator,
    CreationDate,
    EventLine(Event, u32),
    Refused(u8),
}

// What a line is, and where its commas stand: so whoever asks for its parts need not look for them again.
#[derive(Clone, Copy, Debug, PartialEq, Eq)]
pub struct Split {
    pub reading: Reading,
    pub commas: Commas,
}

// A line of a chunk: it ends just before the index `end`, and what stands after its end begins at the index `start`.
#[derive(Clone, Copy, Debug, PartialEq, Eq)]
pub struct NextRead {
    pub end: usize,
    pub start: usize,
    pub split: Split,
}

// Whether a byte 10 or 13 stands in the line.
fn has_break(line: &[u8]) -> bool
    ensures { result ≡ has_break line.now }
{
    line.iter().any(|b| (*b == 10) | (*b == 13))
}

// Whether a byte 10 or 13 stands in a line that may be known to be plain.
fn broken(line: &[u8], plain: bool) -> bool
    requires { plain ≡ true → all_plain line.now ≡ true }
    ensures { result ≡ has_break line.now }
{
    !plain && has_break(line)
}

// Whether the line is an event line: any that does not start with `#`, the empty one too.
fn event_line(line: &[u8]) -> bool
    ensures { result ≡ is_event_line line.now }
{
    !matches!(line, [b'#', ..])
}

// What a line is that has these commas and may be known to be plain.
fn read_at(line: &[u8], c: Commas, plain: bool) -> Reading
    requires { (c ≡ commas_of line.now) × (plain ≡ true → all_plain line.now ≡ true) }
    ensures { result ≡ read_line line.now }
{
    if LINE_MOST < line.len() {
        return Reading::Refused(1);
    }
    if broken(line, plain) {
        return Reading::Refused(1);
    }
    if event_line(line) {
        return read_event(line, c, plain);
    }
    read_parameter(line)
}

// What a line is, and where its commas stand. It is split once, here.
pub fn read_split(line: &[u8]) -> Split
    ensures { result ≡ split_line line.now }
{
    let commas = split(line);
    let reading = read_at(line, commas, all_plain(line));
    Split { reading, commas }
}

// What a line is, from its bytes alone; it comes without its end.
pub fn read(line: &[u8]) -> Reading
    ensures { result ≡ read_line line.now }
{
    read_split(line).reading
}

// The next line of a chunk from an index on, and what it is; nothing where no whole line is left. Where `whole`, what is left is one line as it stands.
pub fn read_next(s: &[u8], at: usize, whole: bool) -> Option<NextRead>
    ensures { result ≡ next_reading whole s.now at }
{
    let next = next_line(s, at, whole)?;
    let commas = next.commas;
    let reading = read_at(&s[at..next.end], commas, next.plain);
    Some(NextRead {
        end: next.end,
        start: next.start,
        split: Split { reading, commas },
    })
}
