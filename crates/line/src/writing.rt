// Writing one event line.
ghost use Rattle.std.specs.Prelude.{◌≡◌, [], ◌∷◌, ◌+◌, ◌≤◌, length};
ghost use Rattle.text.specs.Name.{name_most};
ghost use Rattle.text.specs.Put.{put, after};
ghost use Rattle.text.specs.Refusal.{answer_number, numbered};
ghost use Rattle.words.specs.Kind.{kind_word};
ghost use Rattle.line.specs.Writing.{has_sizes, record_refusal, text_of, note_text, number_field, name_field, write_line, wrote};

use crate::event::Event;
use forms::note::note_of;
use forms::rule::rule_broken;
use text::name::name;
use text::put::{digit_count, put_bytes, put_number};
use text::refusal::Refusal;
use text::size::MAX_TIME;
use words::class::is_of;
use words::kind::{Kind, kind_length, put_kind};
use words::writing::{put_word, word_length};

// Whether the time has its size, source and target are names, and the note is one or empty.
fn sizes(time: u64, source: &[u8], target: &[u8], note: &[u8]) -> bool
    ensures { result ≡ has_sizes time source.now target.now note.now }
{
    (time <= MAX_TIME) & (name(source) & (name(target) & ((note.len() == 0) | name(note))))
}

// Whether a record may be written; else the refusal with the lowest number of those that apply to it.
fn may_be_written(event: Event, source: &[u8], target: &[u8], note: &[u8]) -> Result<(), Refusal>
    ensures { answer_number result ≡ record_refusal event source.now target.now note.now }
{
    let kind = event.kind;
    let action = event.action;
    if !sizes(event.time, source, target, note) {
        return Err(Refusal::Field);
    }
    if !is_of(kind, action) {
        return Err(Refusal::Event);
    }
    if note_of(kind, note).is_none() {
        return Err(Refusal::Field);
    }
    if rule_broken(
        kind,
        action,
        source,
        event.source_instance,
        target,
        event.target_instance,
        note,
    ) {
        return Err(Refusal::Rule);
    }
    Ok(())
}

// How long the line of a record is.
fn line_length(event: Event, source: &[u8], target: &[u8], note: &[u8]) -> usize
    requires { (length source.now ≤ name_most) × (length target.now ≤ name_most) × (length note.now ≤ name_most) }
    ensures { result ≡ length (text_of event source.now target.now note.now) }
{
    let kind = event.kind;
    let action = event.action;
    let numbers = digit_count(event.time)
        + digit_count(event.source_instance as u64)
        + digit_count(event.target_instance as u64);
    let words = kind_length(kind) + word_length(action);
    let n = numbers + words + source.len() + target.len() + 6;
    if note.len() == 0 {
        return n;
    }
    n + 1 + note.len()
}

// Puts a comma into out at the index at.
fn put_comma(out: &mut [u8], at: usize) -> usize
    ensures { after result out.new ≡ put out.old at (44 ∷ []) }
{
    put_bytes(b",", out, at)
}

// Puts a number and a comma into out from the index at on.
fn put_number_field(x: u64, out: &mut [u8], at: usize) -> usize
    requires { at + length (number_field x) ≤ length out.old }
    ensures { after result out.new ≡ put out.old at (number_field x) }
{
    let comma = put_number(x, out, at);
    put_comma(out, comma)
}

// Puts a name and a comma into out from the index at on.
fn put_name_field(s: &[u8], out: &mut [u8], at: usize) -> usize
    requires { at + length (name_field s.now) ≤ length out.old }
    ensures { after result out.new ≡ put out.old at (name_field s.now) }
{
    let comma = put_bytes(s, out, at);
    put_comma(out, comma)
}

// Puts a type and a comma into out from the index at on.
fn put_kind_field(kind: Kind, out: &mut [u8], at: usize) -> usize
    requires { at + length (name_field (kind_word kind)) ≤ length out.old }
    ensures { after result out.new ≡ put out.old at (name_field (kind_word kind)) }
{
    let comma = put_kind(kind, out, at);
    put_comma(out, comma)
}

// Puts a comma and the note into out from the index at on; an empty note is no note.
fn put_note(note: &[u8], out: &mut [u8], at: usize) -> usize
    requires { at + length (note_text note.now) ≤ length out.old }
    ensures { after result out.new ≡ put out.old at (note_text note.now) }
{
    if note.len() == 0 {
        return at;
    }
    let text = put_comma(out, at);
    put_bytes(note, out, text)
}

// Puts the line of a record at the front of out.
fn put_line(event: Event, source: &[u8], target: &[u8], note: &[u8], out: &mut [u8]) -> usize
    requires { length (text_of event source.now target.now note.now) ≤ length out.old }
    ensures { after result out.new ≡ put out.old 0 (text_of event source.now target.now note.now) }
{
    let kind = event.kind;
    let action = event.action;
    let a2 = put_number_field(event.time, out, 0);
    let a3 = put_name_field(source, out, a2);
    let a4 = put_number_field(event.source_instance as u64, out, a3);
    let a5 = put_kind_field(kind, out, a4);
    let a6 = put_name_field(target, out, a5);
    let a7 = put_number_field(event.target_instance as u64, out, a6);
    let a8 = put_word(action, out, a7);
    put_note(note, out, a8)
}

// Writes the one line that a record is at the front of out, without an end; an empty note is no note. The rest of out stays as it
// was, and on a refusal all of it.
pub fn write(
    event: Event,
    source: &[u8],
    target: &[u8],
    note: &[u8],
    out: &mut [u8],
) -> Result<usize, Refusal>
    ensures { wrote (numbered result) out.new ≡ write_line event source.now target.now note.now out.old }
{
    may_be_written(event, source, target, note)?;
    let n = line_length(event, source, target, note);
    if out.len() < n {
        return Err(Refusal::Size);
    }
    put_line(event, source, target, note, out);
    Ok(n)
}
