// Lines that start with `#`: the version, comments and parameters.
#![tactic(auto, using(text::proofs::Words::pointwise_same), unfolding(text::specs::Bytes::starts_with, crate::specs::Parameter::is_version, crate::specs::Parameter::is_version_line, crate::specs::Parameter::is_comment, crate::specs::Parameter::time_scale, crate::specs::Parameter::is_creator, crate::specs::Parameter::is_creation_date, crate::specs::Parameter::other_reading, crate::specs::Parameter::parameter_reading))]

ghost use Rattle.std.specs.Prelude.{◌≡◌};
ghost use Rattle.line.specs.Parameter.{is_version_line, time_scale, is_creator, is_creation_date, parameter_reading, other_reading};

use crate::reading::Reading;
use forms::date::moment;
use text::bytes::{same, starts};
use words::scale::{Scale, scale_of};

// Whether the line is `#version`, or begins with it and a blank.
fn version_line(line: &[u8]) -> bool
    ensures { result ≡ is_version_line line.now }
{
    same(line, b"#version") || starts(line, b"#version ")
}

// The time scale that the line sets. 000 spells the keyword in two ways.
fn time_scale(line: &[u8]) -> Option<Scale>
    ensures { result ≡ time_scale line.now }
{
    if let Some(name) = line.strip_prefix(b"#timeScale ") {
        return scale_of(name);
    }
    scale_of(line.strip_prefix(b"#timescale ")?)
}

// Whether the line names a creator, with any bytes but none.
fn creator(line: &[u8]) -> bool
    ensures { result ≡ is_creator line.now }
{
    starts(line, b"#creator ") && 9 < line.len()
}

// Whether the line gives a creation date.
fn creation_date(line: &[u8]) -> bool
    ensures { result ≡ is_creation_date line.now }
{
    let Some(date) = line.strip_prefix(b"#creationDate ") else {
        return false;
    };
    moment(date)
}

// What a line is that starts with `#` and is no version and no comment.
fn read_other(line: &[u8]) -> Reading
    ensures { result ≡ other_reading line.now }
{
    if let Some(scale) = time_scale(line) {
        return Reading::TimeScale(scale);
    }
    if creator(line) {
        return Reading::Creator;
    }
    if creation_date(line) {
        return Reading::CreationDate;
    }
    Reading::Refused(3)
}

// What a line is that starts with `#`.
pub(crate) fn read_parameter(line: &[u8]) -> Reading
    ensures { result ≡ parameter_reading line.now }
{
    // "that text is compared as a fixed byte string"
    if same(line, b"#version 2.2.0") {
        return Reading::Version;
    }
    if version_line(line) {
        return Reading::Refused(2);
    }
    if starts(line, b"# ") {
        return Reading::Comment;
    }
    read_other(line)
}
