// How long a text can be, from its parts.
use machine::Machine;
use numbers::MOST_DECIMAL;

// A number, and the character after it.
pub(crate) const FIELD: usize = MOST_DECIMAL + 1;

// So many numbers stand on the line of a run.
pub(crate) const FIELDS: usize = 10;

// The last of them, which the line feed follows.
pub(crate) const LAST: usize = FIELDS - 1;

// The hexadecimal digits of a cell.
pub(crate) const CELL_DIGITS: usize = 8;

// A cell, and the line feed after it.
const CELL: usize = CELL_DIGITS + 1;

// The longest text: no buffer of this length is too short.
pub const LONGEST: usize = FIELDS * FIELD + Machine::CELLS * CELL;
