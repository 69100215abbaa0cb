// One line of a section: its length, and writing it.
ghost use Rattle.std.specs.Prelude.{◌≡◌, ◌+◌, ◌<◌, ◌≤◌, length};
ghost use Rattle.text.specs.Put.{put, after};
ghost use Rattle.bill.specs.Text.{figures_text, row_text};
ghost use Rattle.tables.specs.Entry.{name_count, name_rows};
ghost use Rattle.sheet.specs.Sheet.{figures_in, row_in};

use crate::figure::{charge, held_ticks, idle_ticks};
use crate::tested::Tested;
use bill::figure::put_figure;
use bill::section::Section;
use tables::entry::*;
use text::put::{digit_count, put_bytes};

// How many bytes the figures of the row i take.
fn figures_length(
    nums: &[u32; NUMS_SIZE],
    ticks: &[u64; TICKS_SIZE],
    section: Section,
    i: usize,
) -> usize
    requires { (i < name_rows) × (name_count nums.now ≤ name_rows) }
    ensures { result ≡ length (figures_text (figures_in section nums.now ticks.now i)) }
{
    match section {
        Section::Cores => {
            let held = digit_count(held_ticks(nums, ticks, i));
            let idle = digit_count(idle_ticks(nums, ticks, i));
            let unknown = digit_count(ticks[UNKNOWN + i]);
            held + idle + unknown + 3
        }
        Section::Processes => digit_count(charge(nums, ticks, i)) + 1,
    }
}

// Writes the figures of the row i, each after a blank.
fn put_figures(
    nums: &[u32; NUMS_SIZE],
    ticks: &[u64; TICKS_SIZE],
    section: Section,
    i: usize,
    out: &mut [u8],
    at: usize,
) -> usize
    requires { (i < name_rows)
        × ((name_count nums.now ≤ name_rows)
        × (at + length (figures_text (figures_in section nums.now ticks.now i)) ≤ length out.old)) }
    ensures { after result out.new ≡ put out.old at (figures_text (figures_in section nums.now ticks.now i)) }
{
    match section {
        Section::Cores => {
            let one = put_figure(held_ticks(nums, ticks, i), out, at);
            let two = put_figure(idle_ticks(nums, ticks, i), out, one);
            put_figure(ticks[UNKNOWN + i], out, two)
        }
        Section::Processes => put_figure(charge(nums, ticks, i), out, at),
    }
}

#[tactic(auto, using(ranges::proofs::Valid::valid))]
impl<'a> Tested<'a> {
    // How many bytes the line of the row i takes with its end.
    pub(crate) fn row_length(self, section: Section, i: usize) -> usize
        requires { i < name_count self.nums.now }
        ensures { result ≡ length (row_text (row_in section self.entry.names.now self.entry.nums.now self.entry.ticks.now i)) }
    {
        let name = self.nums[LENGTH + i] as usize;
        name + figures_length(self.nums, self.ticks, section, i) + 1
    }

    // Writes the line of the row i with its end.
    pub(crate) fn put_row(self, section: Section, i: usize, out: &mut [u8], at: usize) -> usize
        requires { (i < name_count self.nums.now)
            × (at + length (row_text (row_in section self.names.now self.nums.now self.ticks.now i)) ≤ length out.old) }
        ensures { after result out.new
            ≡ put out.old at (row_text (row_in section self.entry.names.now self.entry.nums.now self.entry.ticks.now i)) }
    {
        let start = NAME_ROOM * i;
        let end = start + self.nums[LENGTH + i] as usize;
        let names = self.names;
        let one = put_bytes(&names[start..end], out, at);
        let two = put_figures(self.nums, self.ticks, section, i, out, one);
        put_bytes(b"\n", out, two)
    }
}
