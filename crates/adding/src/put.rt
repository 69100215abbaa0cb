// The figures of a row, and one line of the sum.
ghost use Rattle.std.specs.Prelude.{◌≡◌, ◌+◌, ◌≤◌, length};
ghost use Rattle.text.specs.Put.{put, after};
ghost use Rattle.bill.specs.Text.{figures_text, row_text};
ghost use Rattle.adding.specs.MergeCode.{figures_at, none_for, sum_of, Small, shown, row_with};

use bill::figure::put_figure;
use bill::section::Section;
use paper::line::{amount, line_at};
use text::put::put_bytes;

// The figures of a row: held, idle and unknown of a core, the charge of a process and nothing more.
#[derive(Clone, Copy, Debug, PartialEq, Eq)]
pub(crate) struct Figures {
    pub first: u64,
    pub second: u64,
    pub third: u64,
}

// The figures of the row that begins at the index p.
pub(crate) fn figures_at(text: &[u8], p: u32) -> Figures
    ensures { result ≡ figures_at text.now p }
{
    let line = line_at(text, p as usize);
    Figures {
        first: amount(line, 1),
        second: amount(line, 2),
        third: amount(line, 3),
    }
}

// The figures of a name that is missing from a sheet of this span: "A core missing from one sheet gets that sheet's span as unknown".
pub(crate) fn none_for(span: u64) -> Figures
    ensures { result ≡ none_for span }
{
    Figures {
        first: 0,
        second: 0,
        third: span,
    }
}

// Figures added one by one.
pub(crate) fn sum_of(f: Figures, g: Figures) -> Figures
    requires { Small f × Small g }
    ensures { result ≡ sum_of f g }
{
    Figures {
        first: f.first + g.first,
        second: f.second + g.second,
        third: f.third + g.third,
    }
}

// Puts the figures that a row of the section shows, each after a blank.
fn put_figures(section: Section, f: Figures, out: &mut [u8], at: usize) -> usize
    requires { at + length (figures_text (shown section f)) ≤ length out.old }
    ensures { after result out.new ≡ put out.old at (figures_text (shown section f)) }
{
    match section {
        Section::Cores => {
            let one = put_figure(f.first, out, at);
            let two = put_figure(f.second, out, one);
            put_figure(f.third, out, two)
        }
        Section::Processes => put_figure(f.first, out, at),
    }
}

// Puts the line of a name with its figures.
pub(crate) fn put_row(section: Section, name: &[u8], f: Figures, out: &mut [u8], at: usize) -> usize
    requires { at + length (row_text (row_with section name.now f)) ≤ length out.old }
    ensures { after result out.new ≡ put out.old at (row_text (row_with section name.now f)) }
{
    let one = put_bytes(name, out, at);
    let two = put_figures(section, f, out, one);
    put_bytes(b"\n", out, two)
}
