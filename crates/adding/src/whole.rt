// The text of a bill, put from its values and the lines of its rows.
ghost use Rattle.std.specs.Prelude.{◌≡◌, ◌+◌, ◌≤◌, length};
ghost use Rattle.text.specs.Put.{written, put, after};
ghost use Rattle.bill.specs.Text.{title};
ghost use Rattle.shifts.specs.Sum.{Text};
ghost use Rattle.adding.specs.Adding.{told_as, into_output};
ghost use Rattle.adding.specs.AddCode.{counted_text, counted_length, head_of, Short, made_text};

use crate::refusal::Refusal;
use bill::section::{Section, put_title, title_length};
use bill::verdict::{Verdict, put_verdict, verdict_length};
use text::put::{digit_count, put_bytes, put_number};

// How many bytes a section takes.
fn section_length(section: Section, count: usize, rows: usize) -> usize
    requires { rows ≤ 65536 }
    ensures { (result ≡ counted_length (title section) count rows) × (result ≤ 65600) }
{
    title_length(section) + digit_count(count as u64) + 1 + rows
}

// Puts a section: its title, its count and the lines of its rows.
fn put_section(section: Section, count: usize, rows: &[u8], out: &mut [u8], at: usize) -> usize
    requires { at + length (counted_text (title section) count rows.now) ≤ length out.old }
    ensures { after result out.new ≡ put out.old at (counted_text (title section) count rows.now) }
{
    let one = put_title(section, out, at);
    let two = put_number(count as u64, out, one);
    let three = put_bytes(b"\n", out, two);
    put_bytes(rows, out, three)
}

// A bill with the lines of its rows as they stand.
#[derive(Clone, Copy, Debug, PartialEq, Eq)]
pub(crate) struct Made<'a> {
    pub scale: u32,
    pub span: u64,
    pub cores: usize,
    pub core_lines: &'a [u8],
    pub processes: usize,
    pub process_lines: &'a [u8],
}

impl Made<'_> {
    // The verdict's line.
    fn head(&self) -> Verdict
        ensures { result ≡ head_of self.now.scale self.now.span }
    {
        Verdict {
            number: 0,
            line: 0,
            scale: self.scale,
            span: self.span,
        }
    }

    // How many bytes the whole text takes.
    fn length(&self) -> usize
        requires { Short self.now }
        ensures { result ≡ length (made_text self.now) }
    {
        let first = section_length(Section::Cores, self.cores, self.core_lines.len());
        let second = section_length(Section::Processes, self.processes, self.process_lines.len());
        verdict_length(self.head()) + first + second
    }

    // Puts the whole text.
    fn put(&self, out: &mut [u8])
        requires { length (made_text self.now) ≤ length out.old }
        ensures { out.new ≡ written out.old 0 (made_text self.now) }
    {
        let one = put_verdict(self.head(), out, 0);
        let two = put_section(Section::Cores, self.cores, self.core_lines, out, one);
        put_section(
            Section::Processes,
            self.processes,
            self.process_lines,
            out,
            two,
        );
    }

    // Puts the whole text, where it fits.
    pub(crate) fn put_whole(&self, out: &mut [u8]) -> Result<usize, Refusal>
        requires { Short self.now }
        ensures { told_as result out.new ≡ into_output (Text (made_text self.now)) out.old }
    {
        let length = self.length();
        if out.len() < length {
            return Err(Refusal::Output);
        }
        self.put(out);
        Ok(length)
    }
}
