// The instructions that touch the parameter cells alone, by code.
ghost use Rattle.std.specs.Prelude.{◌≤◌, ◌<◌};
ghost use Rattle.links.specs.Depths.{cells_depth};
ghost use Rattle.machine.specs.Refusals.{says};
ghost use Rattle.run_words.specs.Promises.{CarriesOut, Unlinked};

use crate::{cells, jumps};
use machine::{Machine, Refusal};
use run_words::Stack;
use word::OneCell;

// BEQ and BRA
pub fn branches(
    code: u8,
    operand: u32,
    next: u32,
    cells: &mut [u32; Machine::CELLS],
    p: usize,
    flag: u32,
) -> Result<Stack, Refusal>
    requires { (p ≤ cells_depth) × (0x80 ≤ code) }
    ensures { CarriesOut code operand next cells.old p flag cells.new (says result) }
{
    if 0xBF < code {
        return jumps::branch(cells, operand, p, flag, next);
    }
    jumps::branch_on_zero(cells, operand, p, flag, next)
}

// Every code below 80 but those that the linked stacks, memory and the cells in view have a part in; what is left is unknown.
pub fn on_cells(
    code: u8,
    operand: u32,
    next: u32,
    cells: &mut [u32; Machine::CELLS],
    p: usize,
    flag: u32,
) -> Result<Stack, Refusal>
    requires { (p ≤ cells_depth) × ((code < 0x80) × Unlinked code) }
    ensures { CarriesOut code operand next cells.old p flag cells.new (says result) }
{
    match code {
        0x00 => cells::nothing(cells, p, flag, next),
        0x01 => cells::discard(cells, p, flag, next),
        0x02 => cells::dup(cells, p, flag, next),
        0x03 => cells::swap(cells, p, flag, next),
        0x04 => cells::over(cells, p, flag, next),
        0x05 => cells::nip(cells, p, flag, next),
        0x06 => cells::rot(cells, p, flag, next),
        0x0A => cells::depth(cells, p, flag, next),
        0x0E => cells::two(cells, 0x0E, p, flag, next),
        0x0F => cells::two(cells, 0x0F, p, flag, next),
        0x10 => cells::one(cells, OneCell::Negate, p, flag, next),
        0x11 => cells::one(cells, OneCell::Increment, p, flag, next),
        0x12 => cells::one(cells, OneCell::Decrement, p, flag, next),
        0x13 => cells::one(cells, OneCell::Halve, p, flag, next),
        0x14 => cells::two(cells, 0x14, p, flag, next),
        0x15 => cells::two(cells, 0x15, p, flag, next),
        0x16 => cells::two(cells, 0x16, p, flag, next),
        0x17 => cells::two(cells, 0x17, p, flag, next),
        0x18 => cells::two(cells, 0x18, p, flag, next),
        0x19 => cells::two(cells, 0x19, p, flag, next),
        0x1A => cells::two(cells, 0x1A, p, flag, next),
        0x1B => cells::two(cells, 0x1B, p, flag, next),
        0x1C => cells::one(cells, OneCell::ZeroEqual, p, flag, next),
        0x1D => cells::one(cells, OneCell::ZeroUnequal, p, flag, next),
        0x1E => cells::one(cells, OneCell::ZeroLess, p, flag, next),
        0x1F => cells::one(cells, OneCell::ZeroGreater, p, flag, next),
        0x20 => cells::zero(cells, p, flag, next),
        0x21 => cells::two(cells, 0x21, p, flag, next),
        0x22 => cells::two(cells, 0x22, p, flag, next),
        0x23 => cells::one(cells, OneCell::Invert, p, flag, next),
        0x24 => cells::two(cells, 0x24, p, flag, next),
        0x25 => cells::one(cells, OneCell::ShiftLeft, p, flag, next),
        0x26 => cells::one(cells, OneCell::ShiftRight, p, flag, next),
        0x27 => cells::one(cells, OneCell::ExtendByte, p, flag, next),
        0x28 => cells::one(cells, OneCell::ExtendWord, p, flag, next),
        0x29 => cells::two(cells, 0x29, p, flag, next),
        0x2A => cells::two(cells, 0x2A, p, flag, next),
        0x2B => cells::two(cells, 0x2B, p, flag, next),
        0x2C => cells::two(cells, 0x2C, p, flag, next),
        0x33 => cells::dup_nonzero(cells, p, flag, next),
        0x34 => cells::literal(cells, operand, p, flag, next),
        0x35 => cells::literal(cells, operand, p, flag, next),
        0x36 => cells::literal(cells, operand, p, flag, next),
        0x37 => jumps::jump(cells, p, flag, next),
        _ => Err(Refusal::UnknownCode),
    }
}
