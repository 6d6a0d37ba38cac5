// Instructions that go somewhere and touch no linked stack.
ghost use Rattle.std.specs.Prelude.{ℕ, ◌≤◌};
ghost use Rattle.links.specs.Depths.{cells_depth};
ghost use Rattle.machine.specs.Codes.{JUMP, JMP, BEQ, BRA};
ghost use Rattle.machine.specs.Refusals.{says};
ghost use Rattle.run_words.specs.Promises.{Meets};

use machine::{Machine, Refusal};
use run_words::Stack;

// ( address -- )
pub fn jump(
    cells: &mut [u32; Machine::CELLS],
    p: usize,
    flag: u32,
    next: u32,
) -> Result<Stack, Refusal>
    requires { p ≤ cells_depth }
    ensures { (operand : ℕ) → Meets (JUMP JMP) 1 operand next cells.old p flag cells.new (says result) }
{
    if p < 1 {
        return Err(Refusal::TooFewCells);
    }
    let to = cells[p - 1];
    Ok(Stack {
        flag,
        counter: to,
        p: p - 1,
    })
}

// ( x -- ) BEQ
pub fn branch_on_zero(
    cells: &mut [u32; Machine::CELLS],
    operand: u32,
    p: usize,
    flag: u32,
    next: u32,
) -> Result<Stack, Refusal>
    requires { p ≤ cells_depth }
    ensures { Meets (JUMP BEQ) 1 operand next cells.old p flag cells.new (says result) }
{
    if p < 1 {
        return Err(Refusal::TooFewCells);
    }
    let x = cells[p - 1];
    if x == 0 {
        return Ok(Stack {
            flag,
            counter: operand,
            p: p - 1,
        });
    }
    Ok(Stack {
        flag,
        counter: next,
        p: p - 1,
    })
}

// ( -- ) BRA
pub fn branch(
    cells: &mut [u32; Machine::CELLS],
    operand: u32,
    p: usize,
    flag: u32,
    next: u32,
) -> Result<Stack, Refusal>
    requires { p ≤ cells_depth }
    ensures { Meets (JUMP BRA) 0 operand next cells.old p flag cells.new (says result) }
{
    Ok(Stack {
        flag,
        counter: operand,
        p,
    })
}
