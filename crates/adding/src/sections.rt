// A section of the sum of two sheets that were read, put by the places of the rows.
ghost use Rattle.std.specs.Prelude.{◌≡◌, length};
ghost use Rattle.text.specs.Put.{put, after};
ghost use Rattle.bill.specs.Text.{rows_text};
ghost use Rattle.adding.specs.AddCode.{Paired, sums_of, room_of};

use crate::merge::{Merged, put_sums};
use crate::sheet::Sheet;
use bill::section::Section;

// The rows of 128 cores, and those of 512 processes, take no more: `core_rows_most`, `process_rows_most`.
pub(crate) const CORE_ROWS_MOST: usize = 16384;

pub(crate) const PROCESS_ROWS_MOST: usize = 44032;

// Puts the rows of a section.
pub(crate) fn put_section_rows(section: Section, x: &Sheet, y: &Sheet, out: &mut [u8]) -> Merged
    requires { Paired x.now y.now × (length out.old ≡ room_of section) }
    ensures { (result.count ≡ length (sums_of section x.now y.now))
        × (after result.next out.new ≡ put out.old 0 (rows_text (sums_of section x.now y.now))) }
{
    let left = x.side(section);
    let right = y.side(section);
    put_sums(section, &left, &right, out)
}
