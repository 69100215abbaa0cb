// Why a sum is refused.
ghost use Rattle.std.specs.Prelude.{◌≡◌};
ghost use Rattle.adding.specs.Adding.{number_of};

// By the numbers of 02's list, and of 01's table for an output that is too short.
#[derive(Clone, Copy, Debug, PartialEq, Eq, Hash)]
pub enum Refusal {
    Output = 15,
    Malformed = 21,
    Scales = 22,
    Names = 23,
    TooMany = 24,
    TooLong = 25,
}

impl Refusal {
    pub fn number(self) -> u32
        ensures { result ≡ number_of self }
    {
        self as u32
    }
}
