// The two sections of a sheet, in their order, and their titles.
ghost use Rattle.std.specs.Prelude.{◌≡◌, length};
ghost use Rattle.text.specs.Put.{put, after};
ghost use Rattle.bill.specs.Text.{title};

use text::put::put_bytes;

#[derive(Clone, Copy, Debug, PartialEq, Eq)]
pub enum Section {
    Cores,
    Processes,
}

fn title(section: Section) -> &'static [u8]
    ensures { result.now ≡ title section }
{
    match section {
        Section::Cores => b"cores ",
        Section::Processes => b"processes ",
    }
}

// How many bytes the title takes.
pub fn title_length(section: Section) -> usize
    ensures { result ≡ length (title section) }
{
    title(section).len()
}

// Puts the title into out from the index at on, and returns the index after it; where it doesn't fit, at, and nothing is written.
pub fn put_title(section: Section, out: &mut [u8], at: usize) -> usize
    ensures { after result out.new ≡ put out.old at (title section) }
{
    put_bytes(title(section), out, at)
}
