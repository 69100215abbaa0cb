// The five time scales.
ghost use Rattle.std.specs.Prelude.{◌≡◌};
ghost use Rattle.words.specs.Scale.{scale_of};

#[derive(Clone, Copy, Debug, PartialEq, Eq)]
pub enum Scale {
    Picoseconds = 1,
    Nanoseconds = 2,
    Microseconds = 3,
    Milliseconds = 4,
    Seconds = 5,
}

// The time scale that s names.
#[tactic(auto, using(std::proofs::lemmas::Grind::common_steps, crate::proofs::Matched::read_bytes), unfolding(crate::specs::Scale::scale_of, crate::specs::Scale::scale_word, crate::specs::Named::pick))]
pub fn scale_of(s: &[u8]) -> Option<Scale>
    ensures { result ≡ scale_of s.now }
{
    match s {
        b"ps" => Some(Scale::Picoseconds),
        b"ns" => Some(Scale::Nanoseconds),
        b"us" => Some(Scale::Microseconds),
        b"ms" => Some(Scale::Milliseconds),
        b"s" => Some(Scale::Seconds),
        _ => None,
    }
}
