// The run's loop: one round is one instruction, fetched, tested and carried out.
ghost use Rattle.run_words.specs.Levels.{in_rows, note_in};
ghost use Rattle.run_words.specs.Rounds.{Starts, Ends};

use machine::{Cycles, Machine, Reach, Refusal, Steps};
use run_cells::dispatch;
use run_instructions::{arms, checks, leave, price, tally};
use run_levels::linked;
use run_memory::fetch;
use run_words::{Exit, Pointers, Registers};

// Each round is one step: the instruction is fetched and its checks are made, and what refuses it ends the run; then the lent
// arrays and the registers are changed in place. The loop's own test is the one way out: a run that no answer ends has spent
// its budget, answer 1. No line can enter at its start, and it ends behind the first instruction after which one might: to test at every
// step costs every step (docs/SPEED.md). Where no line can be raised, `lines` is false and spares that test too. The registers come in
// and go out field by field: handed over whole, the compiler keeps them in memory.
pub fn rounds(
    mem: &mut [u8],
    cells: &mut [u32; Machine::CELLS],
    returns: &mut [u32; Machine::RETURNS],
    rows: &mut [[u32; linked::ROW]; linked::ROWS],
    copies: &mut [usize; linked::COPIES],
    start: Pointers,
    left: u32,
    reach: Reach,
    turns: bool,
    lines: bool,
) -> Registers
    requires { Starts reach mem.old (in_rows cells.old returns.old rows.old copies.old start) rows.old copies.old left lines }
    ensures { Ends reach turns mem.old (in_rows cells.old returns.old rows.old copies.old start) left (note_in rows.old) mem.new cells.new returns.new rows.new copies.new result }
{
    let mut regs = Registers {
        p: start.p,
        r: start.r,
        s: start.s,
        e: start.e,
        counter: start.counter,
        flag: start.flag,
        left: Steps(left),
        cycles: Cycles(0),
        answer: 1,
        unspent: Steps(0),
        again: false,
    };
    while tally::some_left(regs.left.0, turns, lines) {
        if fetch::foreign(mem, reach, regs.counter) {
            regs = tally::halted(regs, Refusal::OthersPart as u32);
            continue;
        }
        let fetched = fetch::fetch(mem, regs.counter);
        let Ok(instruction) = fetched else {
            regs = leave::by(regs, fetched);
            continue;
        };
        let code = instruction.code;
        let operand = instruction.operand;
        let next = instruction.next;
        let p = regs.p;
        let r = regs.r;
        let s = regs.s;
        let e = regs.e;
        // BEQ and BRA stand before the match: the fetch has told them from the others already
        if 0x7F < code {
            let done = dispatch::branches(code, operand, next, cells, p, regs.flag);
            let Ok(stack) = done else {
                regs = leave::by(regs, done);
                continue;
            };
            regs.p = stack.p;
            regs.flag = stack.flag;
            regs.counter = stack.counter;
            regs = tally::counted(regs, price::price(code));
            continue;
        }
        // each arm goes on to the next round by itself: where they meet, the compiler sets more anew for each of them
        match code {
            // >R ( x -- )
            0x07 => {
                let checked = checks::can_push(p, r);
                let Ok(()) = checked else {
                    regs = leave::by(regs, checked);
                    continue;
                };
                returns[r] = cells[p - 1];
                regs.p = p - 1;
                regs.r = r + 1;
                regs.counter = next;
                regs = tally::counted(regs, price::price(code));
                continue;
            }
            // R@ ( -- x )
            0x08 => {
                let checked = checks::can_read(p, r);
                let Ok(()) = checked else {
                    regs = leave::by(regs, checked);
                    continue;
                };
                cells[p] = returns[r - 1];
                regs.p = p + 1;
                regs.counter = next;
                regs = tally::counted(regs, price::price(code));
                continue;
            }
            // R> ( -- x ) drops what it empties
            0x09 => {
                regs = arms::pop(cells, returns, rows, copies, regs, next, lines);
                continue;
            }
            // CATCH ( address -- )
            0x0B => {
                regs = arms::catch(cells, returns, rows, copies, regs, next);
                continue;
            }
            // RESETSP
            0x0C => {
                regs.p = 0;
                regs.r = 0;
                regs.s = 0;
                regs.e = 0;
                regs.counter = next;
                regs = tally::counted(regs, price::price(code));
                regs = tally::parted(regs, linked::held(rows, lines));
                continue;
            }
            // THROW ( 0 -- ) or ( .. n -- .. n )
            0x0D => {
                regs = arms::throw(cells, rows, copies, regs, next, lines);
                continue;
            }
            // FETCH.L, FETCH.W, FETCH.B ( address -- value ); only FETCH.L is to the whole of a cell
            0x2D | 0x2F | 0x31 => {
                regs = arms::load(mem, cells, rows, regs, code, next, reach);
                continue;
            }
            // STORE.L ( value address -- ); it has an arm of its own, since one arm for all widths costs every step (docs/SPEED.md)
            0x2E => {
                regs = arms::store_long(mem, cells, rows, regs, code, next, reach);
                continue;
            }
            // STORE.W, STORE.B ( value address -- ); neither is to the whole of a cell
            0x30 | 0x32 => {
                regs = arms::store_short(mem, cells, rows, regs, code, next, reach);
                continue;
            }
            // JSL
            0x38 => {
                let checked = checks::can_call(0, p, r, s);
                let Ok(()) = checked else {
                    regs = leave::by(regs, checked);
                    continue;
                };
                returns[r] = next;
                linked::called(rows, copies, r, s, next);
                regs.r = r + 1;
                regs.s = s + 1;
                regs.counter = operand;
                regs = tally::counted(regs, price::price(code));
                continue;
            }
            // JSR ( address -- )
            0x39 => {
                let checked = checks::can_call(1, p, r, s);
                let Ok(()) = checked else {
                    regs = leave::by(regs, checked);
                    continue;
                };
                let to = cells[p - 1];
                returns[r] = next;
                linked::called(rows, copies, r, s, next);
                regs.p = p - 1;
                regs.r = r + 1;
                regs.s = s + 1;
                regs.counter = to;
                regs = tally::counted(regs, price::price(code));
                continue;
            }
            // RTI is an EXIT that releases the block, and nothing but that
            0x3C => {
                let checked = checks::can_return(linked::block(rows), s);
                let Ok(()) = checked else {
                    regs = leave::by(regs, checked);
                    continue;
                };
                regs.s = s - 1;
                regs.e = checks::e_after_drop(s - 1, e, linked::copy_of_s(copies, e));
                regs.r = linked::copy_of_r(copies, s);
                regs.counter = linked::return_address(rows, s);
                linked::release(rows);
                regs = tally::counted(regs, price::price(code));
                regs = tally::parted(regs, linked::held(rows, lines));
                continue;
            }
            // EXIT
            0x3D => {
                let exit = checks::can_exit(s);
                let Exit::Frame = exit else {
                    regs = leave::by_exit(regs, exit);
                    continue;
                };
                regs.s = s - 1;
                regs.e = checks::e_after_drop(s - 1, e, linked::copy_of_s(copies, e));
                regs.r = linked::copy_of_r(copies, s);
                regs.counter = linked::return_address(rows, s);
                regs = tally::counted(regs, price::price(code));
                regs = tally::parted(regs, linked::held(rows, lines));
                continue;
            }
            // PAUSE is a NOP but that it may pass the turn; its one cycle stands outside the table
            0x3E => {
                regs.counter = next;
                regs = tally::counted(regs, price::price(code));
                regs = tally::paused(regs, turns);
                continue;
            }
            _ => {
                let done = dispatch::on_cells(code, operand, next, cells, p, regs.flag);
                let Ok(stack) = done else {
                    regs = leave::by(regs, done);
                    continue;
                };
                regs.p = stack.p;
                regs.flag = stack.flag;
                regs.counter = stack.counter;
                regs = tally::counted(regs, price::price(code));
                continue;
            }
        }
    }
    Registers {
        p: regs.p,
        r: regs.r,
        s: regs.s,
        e: regs.e,
        counter: regs.counter,
        flag: regs.flag,
        left: Steps(regs.left.0),
        cycles: Cycles(regs.cycles.0),
        answer: regs.answer,
        unspent: Steps(regs.unspent.0),
        again: regs.again,
    }
}
