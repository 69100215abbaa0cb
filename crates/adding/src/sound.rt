// Whether a text by itself may be added.
ghost use Rattle.std.specs.Prelude.{◌≡◌};
ghost use Rattle.shifts.specs.Many.{is_sound};

use crate::sheet::read_sheet;

pub fn sound(text: &[u8]) -> bool
    ensures { result ≡ is_sound text.now }
{
    read_sheet(text).is_some()
}
