// A section of the sheet: which names stand in it, its length, and writing it.
ghost use Rattle.std.specs.Prelude.{◌≡◌, ◌+◌, ◌≤◌, length};
ghost use Rattle.text.specs.Put.{put, after};
ghost use Rattle.bill.specs.Text.{rows_text, section_text, title};
ghost use Rattle.sheet.specs.Sheet.{belongs, rows_in};

use crate::tested::Tested;
use bill::section::{Section, put_title, title_length};
use steps::kind::is_process;
use steps::numbers::CORE;
use tables::entry::{KIND, NAMES};
use text::put::{digit_count, put_bytes, put_number};

// Whether a name of the kind stands in the section.
fn in_section(section: Section, kind: u32) -> bool
    ensures { result ≡ belongs section kind }
{
    match section {
        Section::Cores => kind == CORE,
        Section::Processes => is_process(kind),
    }
}

#[tactic(auto, using(ranges::proofs::Valid::valid))]
impl<'a> Tested<'a> {
    // How many names stand in a section. This loop and the two below do another thing with each row, and have no more in common than their first lines.
    fn rows_count(self, section: Section) -> usize
        ensures { result ≡ length (rows_in section self.entry.names.now self.entry.nums.now self.entry.ticks.now) }
    {
        let n = self.nums[NAMES] as usize;
        let mut count: usize = 0;
        for i in 0..n {
            if in_section(section, self.nums[KIND + i]) {
                count += 1;
            }
        }
        count
    }

    // How many bytes the lines of a section take.
    fn rows_length(self, section: Section) -> usize
        ensures { result ≡ length (rows_text (rows_in section self.entry.names.now self.entry.nums.now self.entry.ticks.now)) }
    {
        let n = self.nums[NAMES] as usize;
        let mut sum: usize = 0;
        for i in 0..n {
            if in_section(section, self.nums[KIND + i]) {
                sum += self.row_length(section, i);
            }
        }
        sum
    }

    // Writes the lines of a section.
    fn put_rows(self, section: Section, out: &mut [u8], at: usize) -> usize
        requires { at + length (rows_text (rows_in section self.names.now self.nums.now self.ticks.now)) ≤ length out.old }
        ensures { after result out.new
            ≡ put out.old at (rows_text (rows_in section self.entry.names.now self.entry.nums.now self.entry.ticks.now)) }
    {
        let n = self.nums[NAMES] as usize;
        let mut next = at;
        for i in 0..n {
            if in_section(section, self.nums[KIND + i]) {
                next = self.put_row(section, i, out, next);
            }
        }
        next
    }

    // How many bytes a section takes.
    pub(crate) fn section_length(self, section: Section) -> usize
        ensures { result ≡ length (section_text (title section) (rows_in section self.entry.names.now self.entry.nums.now self.entry.ticks.now)) }
    {
        let count = self.rows_count(section);
        let rows = self.rows_length(section);
        title_length(section) + digit_count(count as u64) + 1 + rows
    }

    // Writes a section: its count, and its lines.
    pub(crate) fn put_section(self, section: Section, out: &mut [u8], at: usize) -> usize
        requires { at + length (section_text (title section) (rows_in section self.names.now self.nums.now self.ticks.now)) ≤ length out.old }
        ensures { after result out.new
            ≡ put out.old at (section_text (title section) (rows_in section self.entry.names.now self.entry.nums.now self.entry.ticks.now)) }
    {
        let count = self.rows_count(section);
        let one = put_title(section, out, at);
        let two = put_number(count as u64, out, one);
        let three = put_bytes(b"\n", out, two);
        self.put_rows(section, out, three)
    }
}
