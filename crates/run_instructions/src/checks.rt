// The tests before an action on the linked stacks, each with its number, in the order of the numbers.
ghost use Rattle.std.specs.Prelude.{◌≡◌, ◌≤◌, ltb, leb};
ghost use Rattle.plain.specs.Answer.{refuses, gives};
ghost use Rattle.plain.specs.Choice.{pick};
ghost use Rattle.links.specs.Depths.{cells_depth, returns_depth, subroutines_depth};
ghost use Rattle.machine.specs.Refusals.{says};
ghost use Rattle.run_words.specs.Answers.{says_exit};
ghost use Rattle.run_words.specs.Verdicts.{pushable, readable, callable, catchable, throwable, exitable, returnable, s_after_pop, e_after_pop, e_after_drop_of};

use machine::{Machine, Refusal};
use run_words::Exit;

// As many parameter cells as are taken.
fn cells_there(takes: usize, p: usize) -> Result<(), Refusal>
    ensures { says result ≡ pick (ltb p takes) (refuses 5) (gives tt) }
{
    if p < takes {
        return Err(Refusal::TooFewCells);
    }
    Ok(())
}

fn return_room(r: usize) -> Result<(), Refusal>
    ensures { says result ≡ pick (leb returns_depth r) (refuses 9) (gives tt) }
{
    if Machine::RETURNS <= r {
        return Err(Refusal::ReturnsFull);
    }
    Ok(())
}

fn level_room(s: usize) -> Result<(), Refusal>
    ensures { says result ≡ pick (leb subroutines_depth s) (refuses 10) (gives tt) }
{
    if Machine::SUBROUTINES <= s {
        return Err(Refusal::SubroutinesFull);
    }
    Ok(())
}

// >R
pub fn can_push(p: usize, r: usize) -> Result<(), Refusal>
    ensures { says result ≡ pushable p r }
{
    cells_there(1, p)?;
    return_room(r)
}

// R@ and R>
pub fn can_read(p: usize, r: usize) -> Result<(), Refusal>
    ensures { says result ≡ readable p r }
{
    if r == 0 {
        return Err(Refusal::NoReturnCell);
    }
    if Machine::CELLS <= p {
        return Err(Refusal::CellsFull);
    }
    Ok(())
}

// JSL takes no cell, JSR one
pub fn can_call(takes: usize, p: usize, r: usize, s: usize) -> Result<(), Refusal>
    ensures { says result ≡ callable takes p r s }
{
    cells_there(takes, p)?;
    return_room(r)?;
    level_room(s)
}

pub fn can_catch(p: usize, r: usize, s: usize, e: usize) -> Result<(), Refusal>
    ensures { says result ≡ catchable p r s e }
{
    cells_there(1, p)?;
    return_room(r)?;
    level_room(s)?;
    if Machine::EXCEPTIONS <= e {
        return Err(Refusal::ExceptionsFull);
    }
    Ok(())
}

// What is thrown: nothing by THROW of 0, which needs no exception level.
pub fn can_throw(cells: &[u32; Machine::CELLS], p: usize, e: usize) -> Result<Option<u32>, Refusal>
    requires { p ≤ cells_depth }
    ensures { says result ≡ throwable cells.now p e }
{
    if p < 1 {
        return Err(Refusal::TooFewCells);
    }
    let n = cells[p - 1];
    if n == 0 {
        return Ok(None);
    }
    if e == 0 {
        return Err(Refusal::NoExceptionLevel);
    }
    Ok(Some(n))
}

// EXIT leaves the top level, or the program where there is none.
pub fn can_exit(s: usize) -> Exit
    ensures { says_exit result ≡ exitable s }
{
    if s == 0 {
        return Exit::Program;
    }
    Exit::Frame
}

// RTI leaves the top level of a routine in progress.
pub fn can_return(block: u32, s: usize) -> Result<(), Refusal>
    ensures { says result ≡ returnable block s }
{
    if block == 0 {
        return Err(Refusal::NoRoutine);
    }
    if s == 0 {
        return Err(Refusal::NoRoutine);
    }
    Ok(())
}

// S after R>, R being lowered already: the top level goes if R is not greater than its copy.
pub fn s_after_pop(r: usize, s: usize, copy: usize) -> usize
    ensures { result ≡ s_after_pop r s copy }
{
    if s == 0 {
        return s;
    }
    if r <= copy {
        return s - 1;
    }
    s
}

// E after a subroutine level was dropped to s: the top level goes if s is not greater than its copy.
pub fn e_after_drop(s: usize, e: usize, copy: usize) -> usize
    ensures { result ≡ e_after_drop_of s e copy }
{
    if e == 0 {
        return e;
    }
    if s <= copy {
        return e - 1;
    }
    e
}

// E after R>: nothing goes unless S was lowered.
pub fn e_after_pop(lower: usize, s: usize, e: usize, copy: usize) -> usize
    ensures { result ≡ e_after_pop lower s e copy }
{
    if lower < s {
        return e_after_drop(lower, e, copy);
    }
    e
}
