// "Every call returns one of document 01's numbered answers": the refusals of its table, from 1 on; no refusal is its 0.
ghost use Rattle.std.specs.Prelude.{◌≡◌};
ghost use Rattle.text.specs.Refusal.{refusal_number};

#[derive(Clone, Copy, Debug, PartialEq, Eq)]
pub enum Refusal {
    Line = 1,
    Version = 2,
    Parameter = 3,
    Scale = 4,
    Field = 5,
    Event = 6,
    Rule = 7,
    Time = 8,
    Kind = 9,
    Room = 10,
    Chart = 11,
    Instance = 12,
    Core = 13,
    Count = 14,
    Size = 15,
    Range = 16,
}

impl Refusal {
    // The number in the table.
    pub fn number(self) -> u32
        ensures { result ≡ refusal_number self }
    {
        self as u32
    }
}
