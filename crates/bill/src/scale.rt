// The time scales by their numbers, as a verdict has them.
ghost use Rattle.std.specs.Prelude.{◌≡◌};
ghost use Rattle.bill.specs.Scale.{scale_number, scale_text};

use words::scale::Scale;

// A time scale's number, from 1.
pub fn scale_number(scale: Scale) -> u32
    ensures { result ≡ scale_number scale }
{
    scale as u32
}

// The word of a number; nothing for a number that has none.
#[tactic(auto, unfolding(crate::specs::Scale::scale_text, words::specs::Scale::scale_word))]
pub(crate) fn scale_word(scale: u32) -> &'static [u8]
    ensures { result.now ≡ scale_text scale }
{
    match scale {
        1 => b"ps",
        2 => b"ns",
        3 => b"us",
        4 => b"ms",
        5 => b"s",
        _ => b"",
    }
}
