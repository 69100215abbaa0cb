// Event lines: seven fields or eight.
ghost use Rattle.std.specs.Prelude.{◌≡◌, true, suc, ◌≤◌, ◌<◌, length};
ghost use Rattle.text.specs.Name.{all_name_bytes, is_name, all_plain};
ghost use Rattle.fields.specs.Part.{part_from, commas_of};
ghost use Rattle.line.specs.Event.{PlainFields, numbers_of, has_names, fields_reading, known_reading, event_reading};

use crate::reading::Reading;
use fields::between;
use fields::part::Commas;
use forms::note::note_of;
use forms::rule::rule_broken;
use text::name::{NAME_MOST, name};
use text::number::read_number;
use text::size::MAX_TIME;
use words::action::Action;
use words::kind::Kind;
use words::pair::named;

// What an event line says, but for its source, target and note, which are the parts 2, 5 and 8 of the line itself.
#[derive(Clone, Copy, Debug, PartialEq, Eq)]
pub struct Event {
    pub time: u64,
    pub source_instance: u32,
    pub kind: Kind,
    pub target_instance: u32,
    pub action: Action,
}

// Whether a field is a name. Of a plain line's field only its length is left to be looked at.
fn field_name(s: &[u8], plain: bool) -> bool
    requires { plain ≡ true → all_name_bytes s.now ≡ true }
    ensures { result ≡ is_name s.now }
{
    if !plain {
        return name(s);
    }
    if s.len() == 0 {
        return false;
    }
    s.len() <= NAME_MOST
}

// The fields of an event line. `noted` tells whether it has the eighth, and `plain` that the bytes of its names and its note are a name's.
#[derive(Clone, Copy)]
struct Fields<'a> {
    time: &'a [u8],
    source: &'a [u8],
    source_instance: &'a [u8],
    kind: &'a [u8],
    target: &'a [u8],
    target_instance: &'a [u8],
    action: &'a [u8],
    note: &'a [u8],
    noted: bool,
    plain: bool,
    ghost plain_bytes: { plain ≡ true → PlainFields source.now target.now note.now },
}

#[tactic(auto, unfolding(crate::specs::Event::has_names, crate::specs::Event::numbers_of, crate::specs::Event::known_reading, crate::specs::Event::fields_reading))]
impl<'a> Fields<'a> {
    // Whether source and target are names, and so is the note where there is one.
    fn names(self) -> bool
        ensures { result ≡ has_names self.entry.source.now self.entry.target.now self.entry.note.now self.entry.noted }
    {
        field_name(self.source, self.plain)
            & (field_name(self.target, self.plain)
                & (!self.noted | field_name(self.note, self.plain)))
    }

    // The time and the two instances; nothing where one of them is no number of its size.
    fn numbers(self) -> Option<(u64, u32, u32)>
        ensures { result ≡ numbers_of self.entry.time.now self.entry.source_instance.now self.entry.target_instance.now }
    {
        let time = read_number(self.time, MAX_TIME)?;
        let source = read_number(self.source_instance, 4294967295)?;
        let target = read_number(self.target_instance, 4294967295)?;
        Some((time, source as u32, target as u32))
    }

    // What the line says where the fields have their form and make this event.
    fn read_known(self, event: Event) -> Reading
        ensures { result ≡ known_reading event.kind event.action event.time
            self.entry.source.now event.source_instance self.entry.target.now event.target_instance self.entry.note.now }
    {
        let Some(count) = note_of(event.kind, self.note) else {
            return Reading::Refused(5);
        };
        if rule_broken(
            event.kind,
            event.action,
            self.source,
            event.source_instance,
            self.target,
            event.target_instance,
            self.note,
        ) {
            return Reading::Refused(7);
        }
        Reading::EventLine(event, count)
    }

    // What the line says.
    fn read(self) -> Reading
        ensures { result ≡ fields_reading self.entry.time.now self.entry.source.now self.entry.source_instance.now self.entry.kind.now
            self.entry.target.now self.entry.target_instance.now self.entry.action.now self.entry.note.now self.entry.noted }
    {
        if !self.names() {
            return Reading::Refused(5);
        }
        let Some((time, source_instance, target_instance)) = self.numbers() else {
            return Reading::Refused(5);
        };
        let Some((kind, action)) = named(self.kind, self.action) else {
            return Reading::Refused(6);
        };
        self.read_known(Event {
            time,
            source_instance,
            kind,
            target_instance,
            action,
        })
    }
}

// The part of a line after one comma and before another.
#[tactic(auto, unfolding(fields::specs::Part::part_from))]
fn part(line: &[u8], a: usize, b: usize) -> &[u8]
    requires { (a < b) × (b ≤ length line.now) }
    ensures { result.now ≡ part_from line.now (suc a) b }
{
    let from = a + 1;
    &line[from..b]
}

// What an event line says that has these commas and may be known to be plain. With six commas all parts but the note are there.
pub(crate) fn read_event(line: &[u8], c: Commas, plain: bool) -> Reading
    requires { (c ≡ commas_of line.now) × (plain ≡ true → all_plain line.now ≡ true) }
    ensures { result ≡ event_reading line.now }
{
    let n = line.len();
    let c1 = c.c1;
    if n <= c.c6 {
        return Reading::Refused(5);
    }
    if c.c8 < n {
        return Reading::Refused(5);
    }
    let time = &line[0..c1];
    let source = part(line, c1, c.c2);
    let source_instance = part(line, c.c2, c.c3);
    let kind = part(line, c.c3, c.c4);
    let target = part(line, c.c4, c.c5);
    let target_instance = part(line, c.c5, c.c6);
    let action = part(line, c.c6, c.c7);
    let note = between(line, c.c7, c.c8);
    let noted = c.c7 < n;
    let fields = Fields {
        time,
        source,
        source_instance,
        kind,
        target,
        target_instance,
        action,
        note,
        noted,
        plain,
    };
    fields.read()
}
