// Reads lines from standard input and prints for each its answer and what it is: for an event line what `write` makes of it, its
// source, target and note, and its count. Lines end at byte 10 here, whatever else they hold. After them come a few lines and
// records that standard input can't hold or that no line gives.
#![tactic(auto)]

ghost use Rattle.std.specs.Prelude.{◌≤◌, length};

use intake::read_full;
use line::event::Event;
use line::reading::Reading;
use std::io::Stdout;
use text::bytes::find;
use words::action::Action;
use words::kind::Kind;
use words::scale::Scale;

fn say(stdout: Stdout, s: &[u8]) {
    let _ = stdout.write_all(s);
}

fn say_number(stdout: Stdout, n: u64) {
    let _ = stdout.print(n);
}

fn say_scale(stdout: Stdout, scale: Scale) {
    match scale {
        Scale::Picoseconds => say(stdout, b"0 scale ps\n"),
        Scale::Nanoseconds => say(stdout, b"0 scale ns\n"),
        Scale::Microseconds => say(stdout, b"0 scale us\n"),
        Scale::Milliseconds => say(stdout, b"0 scale ms\n"),
        Scale::Seconds => say(stdout, b"0 scale s\n"),
    }
}

// The first n bytes of s.
fn say_front(stdout: Stdout, s: &[u8], n: usize) {
    if let Some(front) = s.get(..n) {
        say(stdout, front);
    }
}

// What `write` answers to a record, and the line it makes.
fn say_written(
    stdout: Stdout,
    event: Event,
    source: &[u8],
    target: &[u8],
    note: &[u8],
    out: &mut [u8],
) {
    match line::write(event, source, target, note, out) {
        Ok(n) => {
            say(stdout, b"0 ");
            say_front(stdout, out, n);
        }
        Err(refusal) => say_number(stdout, refusal.number() as u64),
    }
}

// An event line: its answer, what `write` makes of it, and its parts.
fn say_event(stdout: Stdout, l: &[u8], event: Event, count: u32) {
    let mut out = [0u8; 300];
    say(stdout, b"0 event written ");
    say_written(
        stdout,
        event,
        line::field(l, 2),
        line::field(l, 5),
        line::field(l, 8),
        &mut out,
    );
    say(stdout, b" source ");
    say(stdout, line::field(l, 2));
    say(stdout, b" target ");
    say(stdout, line::field(l, 5));
    say(stdout, b" note ");
    say(stdout, line::field(l, 8));
    say(stdout, b" count ");
    say_number(stdout, count as u64);
    say(stdout, b"\n");
}

// What one line is.
fn say_line(stdout: Stdout, l: &[u8]) {
    match line::read(l) {
        Reading::Version => say(stdout, b"0 version\n"),
        Reading::Comment => say(stdout, b"0 comment\n"),
        Reading::TimeScale(scale) => say_scale(stdout, scale),
        Reading::Creator => say(stdout, b"0 creator\n"),
        Reading::CreationDate => say(stdout, b"0 creation date\n"),
        Reading::EventLine(event, count) => say_event(stdout, l, event, count),
        Reading::Refused(no) => {
            say_number(stdout, no as u64);
            say(stdout, b"\n");
        }
    }
}

// Every line of s. No `for`: the end of a line is found, eight bytes at a time; `split_inclusive` looks at each, and a run over long lines takes 1.7
// times the instructions.
fn say_lines(stdout: Stdout, s: &[u8]) {
    let mut at = 0;
    while at < s.len() {
        let end = find(s, b'\n', at);
        say_line(stdout, &s[at..end]);
        at = end + 1;
    }
}

// A record of one event, with A as source and target.
fn say_record(
    stdout: Stdout,
    time: u64,
    instance: u32,
    kind: Kind,
    action: Action,
    note: &[u8],
    out: &mut [u8],
) {
    let event = Event {
        time,
        source_instance: instance,
        kind,
        target_instance: 0,
        action,
    };
    say(stdout, b"record ");
    say_written(stdout, event, b"A", b"A", note, out);
    say(stdout, b"\n");
}

fn say_start(stdout: Stdout, time: u64, instance: u32, out: &mut [u8]) {
    say_record(stdout, time, instance, Kind::Task, Action::Start, b"", out);
}

fn say_lock(stdout: Stdout, kind: Kind, note: &[u8], out: &mut [u8]) {
    say_record(stdout, 0, 0, kind, Action::Lock, note, out);
}

fn say_read(stdout: Stdout, instance: u32, note: &[u8], out: &mut [u8]) {
    say_record(stdout, 0, instance, Kind::Signal, Action::Read, note, out);
}

// Records that no line gives: each of the writer's refusals, and outputs that just hold the line or are one byte too short.
fn say_records(stdout: Stdout) {
    let mut room = [0u8; 64];
    let mut tight = [0u8; 23];
    let mut longer = [0u8; 27];
    let mut short = [0u8; 26];
    say_start(stdout, 72057594037927936, 0, &mut room);
    say_start(stdout, 72057594037927935, 0, &mut room);
    say_lock(stdout, Kind::Task, b"", &mut room);
    say_lock(stdout, Kind::Task, b"a b", &mut room);
    say_start(stdout, 0, 1, &mut room);
    say_lock(stdout, Kind::Semaphore, b"", &mut room);
    say_lock(stdout, Kind::Semaphore, b"01", &mut room);
    say_read(stdout, 0, b"-0.5", &mut tight);
    say_read(stdout, 0, b"-0.50", &mut tight);
    say_read(stdout, 4294967295, b"", &mut longer);
    say_read(stdout, 4294967295, b"", &mut short);
    say_start(stdout, 0, 1, &mut short);
}

fn main(rt: HostRuntime) {
    let mut input = [0u8; 65536];
    let n = read_full(&mut rt.stdin(), &mut input);
    say_lines(rt.stdout(), &input[0..n]);
    say_line(rt.stdout(), b"# a comment with byte 10 \n inside");
    say_records(rt.stdout());
}
