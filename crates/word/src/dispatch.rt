// The operations by name.
ghost use Rattle.std.specs.Prelude.{◌≡◌};
ghost use Rattle.word.specs.Dispatch.{one_cell_of, two_cells_of};
ghost use Rattle.word.specs.Outcomes.{says_outcome};

use crate::{
    Changed, OneCell, Outcome, TwoCells, bits, compare, products, quotients, shifts, sums,
};

#[tactic(auto, unfolding(crate::specs::Dispatch::one_cell_of))]
pub fn one_cell(op: OneCell, x: u32, flag: u32) -> Changed
    ensures { result ≡ one_cell_of op x flag }
{
    match op {
        OneCell::Negate => sums::negate(x, flag),
        OneCell::Increment => sums::increment(x, flag),
        OneCell::Decrement => sums::decrement(x, flag),
        OneCell::Halve => shifts::halve(x, flag),
        OneCell::ZeroEqual => compare::zero_equal(x, flag),
        OneCell::ZeroUnequal => compare::zero_unequal(x, flag),
        OneCell::ZeroLess => compare::zero_less(x, flag),
        OneCell::ZeroGreater => compare::zero_greater(x, flag),
        OneCell::Invert => bits::invert(x, flag),
        OneCell::ShiftLeft => shifts::shift_left(x, flag),
        OneCell::ShiftRight => shifts::shift_right(x, flag),
        OneCell::ExtendByte => shifts::extend_byte(x, flag),
        OneCell::ExtendWord => shifts::extend_word(x, flag),
    }
}

#[tactic(auto, unfolding(crate::specs::Dispatch::two_cells_of))]
pub fn two_cells(op: TwoCells, x: u32, y: u32, flag: u32) -> Outcome
    ensures { says_outcome result ≡ says_outcome (two_cells_of op x y flag) }
{
    match op {
        TwoCells::Plus => sums::plus(x, y, flag),
        TwoCells::Minus => sums::minus(x, y, flag),
        TwoCells::AddExtended => sums::add_extended(x, y, flag),
        TwoCells::SubtractExtended => sums::subtract_extended(x, y, flag),
        TwoCells::Equal => compare::equal(x, y, flag),
        TwoCells::Unequal => compare::unequal(x, y, flag),
        TwoCells::Less => compare::less(x, y, flag),
        TwoCells::Greater => compare::greater(x, y, flag),
        TwoCells::Below => compare::below(x, y, flag),
        TwoCells::Above => compare::above(x, y, flag),
        TwoCells::AndBits => bits::and_bits(x, y, flag),
        TwoCells::OrBits => bits::or_bits(x, y, flag),
        TwoCells::XorBits => bits::xor_bits(x, y, flag),
        TwoCells::MultiplySigned => products::multiply_signed(x, y, flag),
        TwoCells::MultiplyUnsigned => products::multiply_unsigned(x, y, flag),
        TwoCells::DivideSigned => quotients::divide_signed(x, y, flag),
        TwoCells::DivideUnsigned => quotients::divide_unsigned(x, y, flag),
    }
}
