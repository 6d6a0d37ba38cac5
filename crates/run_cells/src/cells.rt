// Instructions on the parameter cells. P is the depth; a pop leaves the old value in its cell.
ghost use Rattle.std.specs.Prelude.{◌≡◌, ℕ, ◌≤◌};
ghost use Rattle.links.specs.Depths.{cells_depth};
ghost use Rattle.machine.specs.Codes.{SHUFFLE, NOP, DROP, DUP, SWAP, OVER, NIP, ROT, PSP-AT, ZERO, DUP-NONZERO, ONE, TWO, LITERAL};
ghost use Rattle.run_words.specs.Operations.{two_of};
ghost use Rattle.machine.specs.Refusals.{says};
ghost use Rattle.run_words.specs.Promises.{Meets, cell_pushed, pushed_cells};

use machine::{Machine, Refusal};
use run_words::Stack;
use word::{OneCell, Outcome, TwoCells};

// ( -- value )
fn push(
    cells: &mut [u32; Machine::CELLS],
    value: u32,
    p: usize,
    flag: u32,
    next: u32,
) -> Result<Stack, Refusal>
    requires { p ≤ cells_depth }
    ensures { (says result ≡ cell_pushed p flag next) × (cells.new ≡ pushed_cells cells.old p value) }
{
    if Machine::CELLS <= p {
        return Err(Refusal::CellsFull);
    }
    cells[p] = value;
    Ok(Stack {
        flag,
        counter: next,
        p: p + 1,
    })
}

// ( -- ) NOP
pub fn nothing(
    cells: &mut [u32; Machine::CELLS],
    p: usize,
    flag: u32,
    next: u32,
) -> Result<Stack, Refusal>
    requires { p ≤ cells_depth }
    ensures { (operand : ℕ) → Meets (SHUFFLE NOP) 0 operand next cells.old p flag cells.new (says result) }
{
    Ok(Stack {
        flag,
        counter: next,
        p,
    })
}

// ( x -- )
pub fn discard(
    cells: &mut [u32; Machine::CELLS],
    p: usize,
    flag: u32,
    next: u32,
) -> Result<Stack, Refusal>
    requires { p ≤ cells_depth }
    ensures { (operand : ℕ) → Meets (SHUFFLE DROP) 1 operand next cells.old p flag cells.new (says result) }
{
    if p < 1 {
        return Err(Refusal::TooFewCells);
    }
    Ok(Stack {
        flag,
        counter: next,
        p: p - 1,
    })
}

// ( x -- x x )
pub fn dup(
    cells: &mut [u32; Machine::CELLS],
    p: usize,
    flag: u32,
    next: u32,
) -> Result<Stack, Refusal>
    requires { p ≤ cells_depth }
    ensures { (operand : ℕ) → Meets (SHUFFLE DUP) 1 operand next cells.old p flag cells.new (says result) }
{
    if p < 1 {
        return Err(Refusal::TooFewCells);
    }
    let x = cells[p - 1];
    push(cells, x, p, flag, next)
}

// ( x y -- y x )
pub fn swap(
    cells: &mut [u32; Machine::CELLS],
    p: usize,
    flag: u32,
    next: u32,
) -> Result<Stack, Refusal>
    requires { p ≤ cells_depth }
    ensures { (operand : ℕ) → Meets (SHUFFLE SWAP) 2 operand next cells.old p flag cells.new (says result) }
{
    if p < 2 {
        return Err(Refusal::TooFewCells);
    }
    let x = cells[p - 2];
    let y = cells[p - 1];
    cells[p - 2] = y;
    cells[p - 1] = x;
    Ok(Stack {
        flag,
        counter: next,
        p,
    })
}

// ( x y -- x y x )
pub fn over(
    cells: &mut [u32; Machine::CELLS],
    p: usize,
    flag: u32,
    next: u32,
) -> Result<Stack, Refusal>
    requires { p ≤ cells_depth }
    ensures { (operand : ℕ) → Meets (SHUFFLE OVER) 2 operand next cells.old p flag cells.new (says result) }
{
    if p < 2 {
        return Err(Refusal::TooFewCells);
    }
    let x = cells[p - 2];
    push(cells, x, p, flag, next)
}

// ( x y -- y )
pub fn nip(
    cells: &mut [u32; Machine::CELLS],
    p: usize,
    flag: u32,
    next: u32,
) -> Result<Stack, Refusal>
    requires { p ≤ cells_depth }
    ensures { (operand : ℕ) → Meets (SHUFFLE NIP) 2 operand next cells.old p flag cells.new (says result) }
{
    if p < 2 {
        return Err(Refusal::TooFewCells);
    }
    let y = cells[p - 1];
    cells[p - 2] = y;
    Ok(Stack {
        flag,
        counter: next,
        p: p - 1,
    })
}

// ( x y z -- y z x )
pub fn rot(
    cells: &mut [u32; Machine::CELLS],
    p: usize,
    flag: u32,
    next: u32,
) -> Result<Stack, Refusal>
    requires { p ≤ cells_depth }
    ensures { (operand : ℕ) → Meets (SHUFFLE ROT) 3 operand next cells.old p flag cells.new (says result) }
{
    if p < 3 {
        return Err(Refusal::TooFewCells);
    }
    let x = cells[p - 3];
    let y = cells[p - 2];
    let z = cells[p - 1];
    cells[p - 3] = y;
    cells[p - 2] = z;
    cells[p - 1] = x;
    Ok(Stack {
        flag,
        counter: next,
        p,
    })
}

// ( -- P ) PSP@
pub fn depth(
    cells: &mut [u32; Machine::CELLS],
    p: usize,
    flag: u32,
    next: u32,
) -> Result<Stack, Refusal>
    requires { p ≤ cells_depth }
    ensures { (operand : ℕ) → Meets (SHUFFLE PSP-AT) 0 operand next cells.old p flag cells.new (says result) }
{
    push(cells, p as u32, p, flag, next)
}

// ( -- 0 )
pub fn zero(
    cells: &mut [u32; Machine::CELLS],
    p: usize,
    flag: u32,
    next: u32,
) -> Result<Stack, Refusal>
    requires { p ≤ cells_depth }
    ensures { (operand : ℕ) → Meets (SHUFFLE ZERO) 0 operand next cells.old p flag cells.new (says result) }
{
    push(cells, 0, p, flag, next)
}

// ( -- operand ) the literals
pub fn literal(
    cells: &mut [u32; Machine::CELLS],
    operand: u32,
    p: usize,
    flag: u32,
    next: u32,
) -> Result<Stack, Refusal>
    requires { p ≤ cells_depth }
    ensures { Meets LITERAL 0 operand next cells.old p flag cells.new (says result) }
{
    push(cells, operand, p, flag, next)
}

// ( x -- x x | 0 )
pub fn dup_nonzero(
    cells: &mut [u32; Machine::CELLS],
    p: usize,
    flag: u32,
    next: u32,
) -> Result<Stack, Refusal>
    requires { p ≤ cells_depth }
    ensures { (operand : ℕ) → Meets (SHUFFLE DUP-NONZERO) 1 operand next cells.old p flag cells.new (says result) }
{
    if p < 1 {
        return Err(Refusal::TooFewCells);
    }
    let x = cells[p - 1];
    if x == 0 {
        return Ok(Stack {
            flag,
            counter: next,
            p,
        });
    }
    push(cells, x, p, flag, next)
}

// ( x -- value ) arithmetic on one cell
pub fn one(
    cells: &mut [u32; Machine::CELLS],
    op: OneCell,
    p: usize,
    flag: u32,
    next: u32,
) -> Result<Stack, Refusal>
    requires { p ≤ cells_depth }
    ensures { (operand : ℕ) → Meets (ONE op) 1 operand next cells.old p flag cells.new (says result) }
{
    if p < 1 {
        return Err(Refusal::TooFewCells);
    }
    let x = cells[p - 1];
    let changed = word::one_cell(op, x, flag);
    cells[p - 1] = changed.value;
    Ok(Stack {
        flag: changed.flag,
        counter: next,
        p,
    })
}

// The operation on two cells that a code names. The code comes as a number, since an enum is passed by reference and the
// compiler would then see no constant in it.
fn two_of(code: u8) -> TwoCells
    ensures { result ≡ two_of code }
{
    match code {
        0x0E => TwoCells::Plus,
        0x0F => TwoCells::Minus,
        0x14 => TwoCells::AddExtended,
        0x15 => TwoCells::SubtractExtended,
        0x16 => TwoCells::Equal,
        0x17 => TwoCells::Unequal,
        0x18 => TwoCells::Less,
        0x19 => TwoCells::Greater,
        0x1A => TwoCells::Below,
        0x1B => TwoCells::Above,
        0x21 => TwoCells::AndBits,
        0x22 => TwoCells::OrBits,
        0x24 => TwoCells::XorBits,
        0x29 => TwoCells::MultiplySigned,
        0x2A => TwoCells::MultiplyUnsigned,
        0x2B => TwoCells::DivideSigned,
        _ => TwoCells::DivideUnsigned,
    }
}

// ( x y -- value ) or ( x y -- under top ) arithmetic on two cells
pub fn two(
    cells: &mut [u32; Machine::CELLS],
    code: u8,
    p: usize,
    flag: u32,
    next: u32,
) -> Result<Stack, Refusal>
    requires { p ≤ cells_depth }
    ensures { (operand : ℕ) → Meets (TWO (two_of code)) 2 operand next cells.old p flag cells.new (says result) }
{
    if p < 2 {
        return Err(Refusal::TooFewCells);
    }
    let x = cells[p - 2];
    let y = cells[p - 1];
    let op = two_of(code);
    let outcome = word::two_cells(op, x, y, flag);
    match outcome {
        Outcome::Single(value, after) => {
            cells[p - 2] = value;
            Ok(Stack {
                flag: after,
                counter: next,
                p: p - 1,
            })
        }
        Outcome::Double(under, top, after) => {
            cells[p - 2] = under;
            cells[p - 1] = top;
            Ok(Stack {
                flag: after,
                counter: next,
                p,
            })
        }
        Outcome::DivisorZero => Err(Refusal::DivisorZero),
    }
}
