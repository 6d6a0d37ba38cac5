// How a run is left: an answer that refuses ends it with the refusal's number, one that gives something leaves it be.
ghost use Rattle.std.specs.Prelude.{◌≡◌};
ghost use Rattle.machine.specs.Refusals.{says};
ghost use Rattle.run_words.specs.Answers.{says_exit};
ghost use Rattle.run_words.specs.Registers.{halted_by};

use crate::tally;
use machine::Refusal;
use run_words::{Exit, Registers};

pub fn by<T: Copy>(regs: Registers, answer: Result<T, Refusal>) -> Registers
    ensures { result ≡ halted_by (says answer) regs }
{
    match answer {
        Ok(_) => regs,
        Err(refusal) => tally::halted(regs, u32::from(refusal)),
    }
}

// The end of the program is answer 0.
pub fn by_exit(regs: Registers, exit: Exit) -> Registers
    ensures { result ≡ halted_by (says_exit exit) regs }
{
    match exit {
        Exit::Frame => regs,
        Exit::Program => tally::halted(regs, 0),
    }
}
