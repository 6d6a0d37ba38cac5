// Judges a file without touching anything.
ghost use Rattle.std.specs.Prelude.{◌≡◌};
ghost use Rattle.image.specs.Judging.{says_judged, judged_of, Judges};

use crate::{Fault, Section, Spans, sections};
use machine::Machine;

// Section after section, each where the one before it ends; then the budget's limit and the end of the file.
#[tactic(auto, unfolding(crate::specs::Judging::judged_of, crate::specs::Judging::end_judged))]
fn from_the_front(file: &[u8]) -> Result<Spans, Fault>
    ensures { says_judged result ≡ judged_of file.now }
{
    let memory = sections::span_at(file, Section::Memory, 0)?;
    let cells = sections::span_at(file, Section::Cells, memory.to)?;
    let budget = sections::span_at(file, Section::Budget, cells.to)?;
    if Machine::BUDGET < sections::budget_in(file, budget) {
        return Err(Fault::Budget(budget.from));
    }
    if budget.to < file.len() {
        return Err(Fault::Surplus(budget.to));
    }
    Ok(Spans {
        memory,
        cells,
        budget,
    })
}

// Where the sections of a good file stand, or the first clause that a bad one fails, and where.
#[tactic(auto, using(crate::proofs::Laws::Computed::judged_says))]
pub fn judge(file: &[u8]) -> Result<Spans, Fault>
    ensures { Judges file.now result }
{
    from_the_front(file)
}
