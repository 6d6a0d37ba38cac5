// A run of one machine that interrupt lines may enter: one that can enters, the loop goes on until another might, and so on.
ghost use Rattle.run_words.specs.Entries.{LetsIn, Attends};
ghost use Rattle.run_words.specs.Levels.{in_rows, note_in, Laid};
ghost use Rattle.run_words.specs.Rounds.{Takes, Served};

use machine::{Cycles, Machine, Reach, Steps};
use run_instructions::tally;
use run_levels::{linked, parts};
use run_loop::round;
use run_words::{Pointers, Registers};

// Whether a line might enter in this run. Requests come between runs alone, so that where none is due now, none is until its end.
pub fn attend(rows: &mut [[u32; linked::ROW]; linked::ROWS]) -> bool
    ensures { Attends rows.old rows.new result }
{
    let lines = linked::lines(rows);
    if requests::lowest(lines).is_none() {
        return false;
    }
    linked::heed(rows);
    true
}

// The line that can enter does so, as a JSL to its address would, with the counter itself as return address.
pub fn let_in(
    returns: &mut [u32; Machine::RETURNS],
    rows: &mut [[u32; linked::ROW]; linked::ROWS],
    copies: &mut [usize; linked::COPIES],
    at: Pointers,
) -> Pointers
    requires { Laid rows.old copies.old }
    ensures { LetsIn returns.old rows.old copies.old at returns.new rows.new copies.new result }
{
    let r = at.r;
    let s = at.s;
    let lines = linked::lines(rows);
    let Some(n) = requests::entering(lines, r, s) else {
        return at;
    };
    // the level first: behind the return cell it costs a step of the stores (docs/SPEED.md)
    linked::called(rows, copies, r, s, at.counter);
    returns[r] = at.counter;
    linked::set_lines(rows, requests::serving(lines, n));
    let mut to = at;
    to.r = r + 1;
    to.s = s + 1;
    to.counter = 4 * n;
    to
}

pub fn served(
    mem: &mut [u8],
    cells: &mut [u32; Machine::CELLS],
    returns: &mut [u32; Machine::RETURNS],
    rows: &mut [[u32; linked::ROW]; linked::ROWS],
    copies: &mut [usize; linked::COPIES],
    start: Pointers,
    left: u32,
    reach: Reach,
) -> Registers
    requires { Takes reach mem.old (in_rows cells.old returns.old rows.old copies.old start) rows.old copies.old left }
    ensures { Served reach mem.old (in_rows cells.old returns.old rows.old copies.old start) left (note_in rows.old).lost mem.new cells.new returns.new rows.new copies.new result }
{
    attend(rows);
    linked::park(rows, copies, tally::begun(start, left));
    while 0 < linked::left(rows) {
        let regs = linked::parked(rows, copies);
        let at = let_in(returns, rows, copies, parts::left_in(regs));
        let after = round::rounds(
            mem,
            cells,
            returns,
            rows,
            copies,
            at,
            regs.left.0,
            reach,
            false,
            true,
        );
        linked::park(rows, copies, tally::joined(regs, after));
    }
    linked::parked(rows, copies)
}
