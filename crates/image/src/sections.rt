// A section of a file: a count of 4 bytes, then so many elements of a width, within limits.
ghost use Rattle.std.specs.Prelude.{◌≡◌, ◌+◌, ◌*◌, ◌≤◌, length};
ghost use Rattle.numbers.specs.Bytes.{number_at};
ghost use Rattle.image.specs.Format.{limits, cell_width, budget_of, longest_file};
ghost use Rattle.image.specs.Judging.{span_at, values_in};
ghost use Rattle.image.specs.Laws.Met.{says_met};

use crate::{Fault, Limits, Section, Span};
use machine::Machine;

// The budget of a file that gives none.
const DEFAULT_BUDGET: u32 = 250000;

// How many bytes a count has, and a cell.
const COUNT: usize = 4;

pub(crate) const CELL: usize = 4;

// The most bytes that a good file has: each section's count and its most elements. A buffer of one byte more holds no file cut to a good one.
pub const LONGEST_FILE: usize = COUNT
    + Machine::MEMORY
    + COUNT
    + CELL * Machine::CELLS
    + COUNT
    + CELL;

// The same as a number that is held to its definition: an array's length can be no call.
pub fn longest_file() -> usize
    ensures { result ≡ longest_file }
{
    LONGEST_FILE
}

// What each section may hold.
pub fn limits_of(section: Section) -> Limits
    ensures { result ≡ limits section }
{
    match section {
        Section::Memory => Limits {
            width: 1,
            fewest: 1,
            most: Machine::MEMORY,
        },
        Section::Cells => Limits {
            width: CELL,
            fewest: 0,
            most: Machine::CELLS,
        },
        Section::Budget => Limits {
            width: CELL,
            fewest: 0,
            most: 1,
        },
    }
}

// A count is tested before a product is formed with it, so that none can wrap.
#[tactic(auto, using(crate::proofs::Stops::small_product), unfolding(crate::specs::Judging::span_at, numbers::specs::Slices::read_at))]
pub(crate) fn span_at(file: &[u8], section: Section, at: usize) -> Result<Span, Fault>
    ensures { says_met result ≡ span_at file.now section at }
{
    let count = numbers::read::<u32>(file, at).ok_or(Fault::Cut(section, at))? as usize;
    let limits = limits_of(section);
    if count < limits.fewest {
        return Err(Fault::Count(section, at));
    }
    if limits.most < count {
        return Err(Fault::Count(section, at));
    }
    let from = at + COUNT;
    let to = from + limits.width * count;
    if file.len() < to {
        return Err(Fault::Cut(section, at));
    }
    Ok(Span { from, count, to })
}

// The number at a place that is known to lie inside.
#[tactic(auto, unfolding(numbers::specs::Slices::read_at))]
pub(crate) fn cell_at(file: &[u8], at: usize) -> u32
    requires { at + cell_width ≤ length file.now }
    ensures { result ≡ number_at cell_width file.now at }
{
    numbers::read::<u32>(file, at).unwrap()
}

// The budget that a file comes to.
#[tactic(auto, using(crate::proofs::Placing::first_budget), unfolding(numbers::specs::Lists::list_at))]
pub(crate) fn budget_in(file: &[u8], span: Span) -> u32
    requires { span.from + cell_width * span.count ≤ length file.now }
    ensures { result ≡ budget_of (values_in file.now Section.Budget span) }
{
    if span.count == 0 {
        return DEFAULT_BUDGET;
    }
    cell_at(file, span.from)
}
