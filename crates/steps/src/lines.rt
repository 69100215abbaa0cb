// The number of a line's type in these rules; that of its event word is the word's code.
ghost use Rattle.std.specs.Prelude.{◌≡◌};
ghost use Rattle.rules.specs.Lines.{kind_number};

use crate::numbers::*;
use words::kind::Kind;

// The number of a type; 0 for STI, SCHED, EVENT and SIG.
#[tactic(auto, unfolding(rules::specs::Lines::kind_number))]
pub fn kind_number(kind: Kind) -> u32
    ensures { result ≡ kind_number kind }
{
    match kind {
        Kind::Task => TASK,
        Kind::Interrupt => INTERRUPT,
        Kind::Runnable => RUNNABLE,
        Kind::Semaphore => SEMAPHORE,
        _ => 0,
    }
}
