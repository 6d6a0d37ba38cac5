// The lines of a report, each put after the text so far; a function returns where the text then ends. Its caller knows that
// there is room, so nothing is refused here.
ghost use Rattle.std.specs.Prelude.{◌≡◌, ◌+◌, ◌*◌, ◌≤◌, length};
ghost use Rattle.numbers.specs.Putting.{Appended};
ghost use Rattle.report.specs.Sizes.{longest_field, longest_line, cell_size};
ghost use Rattle.report.specs.Text.{field, line, cell_line, cell_lines, numbers_of};

use crate::sizes::{CELL_DIGITS, FIELDS, LAST};
use machine::Ran;

const SPACE: u8 = 0x20;

pub(crate) const LINE_FEED: u8 = 0x0A;

// A number and the character after it.
pub(crate) fn put_field(text: &mut [u8], at: usize, value: u64, end: u8) -> usize
    requires { at + longest_field ≤ length text.old }
    ensures { (result ≤ at + longest_field) × Appended text.old at (field value end) text.new result }
{
    let last = numbers::write_decimal(text, at, value).unwrap();
    text[last] = end;
    last + 1
}

// A cell on its own line.
fn put_cell(text: &mut [u8], at: usize, value: u32) -> usize
    requires { at + cell_size ≤ length text.old }
    ensures { (result ≤ at + cell_size) × Appended text.old at (cell_line value) text.new result }
{
    let last = numbers::write_hexadecimal(text, at, CELL_DIGITS, value).unwrap();
    text[last] = LINE_FEED;
    last + 1
}

// What the line of a run says, in its order.
pub(crate) fn numbers_of(ran: Ran) -> [u64; FIELDS]
    ensures { result ≡ numbers_of ran }
{
    let steps = ran.steps;
    let cycles = ran.cycles;
    let machine = ran.machine;
    let links = machine.links;
    let thrown = machine.thrown;
    [
        ran.answer as u64,
        steps.0 as u64,
        cycles.0 as u64,
        machine.counter as u64,
        machine.p as u64,
        links.r as u64,
        links.s as u64,
        links.e as u64,
        thrown.address as u64,
        thrown.code as u64,
    ]
}

// The numbers of a run on a line, from the start of the text.
pub(crate) fn put_line(text: &mut [u8], numbers: [u64; FIELDS]) -> usize
    requires { longest_line ≤ length text.old }
    ensures { (result ≤ longest_line) × Appended text.old 0 (line numbers) text.new result }
{
    let mut at = 0;
    for &value in &numbers[..LAST] {
        at = put_field(text, at, value, SPACE);
    }
    put_field(text, at, numbers[LAST], LINE_FEED)
}

// Cells, the deepest first, each on its own line.
pub(crate) fn put_cells(text: &mut [u8], from: usize, cells: &[u32]) -> usize
    requires { from + length cells.now * cell_size ≤ length text.old }
    ensures { (result ≤ from + length cells.now * cell_size) × Appended text.old from (cell_lines cells.now) text.new result }
{
    let mut at = from;
    for &cell in cells {
        at = put_cell(text, at, cell);
    }
    at
}
