// The longer arms of the loop, each a function that is called once: the proof of a function grows faster than its length, and the
// compiler puts each in its place.
ghost use Rattle.std.specs.Prelude.{◌≡◌, ℕ, ◌<◌, Bool, List, length};
ghost use Rattle.machine.specs.Limits.{memory_length};
ghost use Rattle.machine.specs.declared.Reach.{Reach};
ghost use Rattle.run_words.specs.Losses.{OneOf, IsStore};
ghost use Rattle.run_words.specs.Promises.{Bounded};
ghost use Rattle.run_instructions.specs.Arms.{Course, Within, Catches, Follows};

use crate::{checks, leave, price, tally};
use machine::{Machine, Reach};
use reach::Spot;
use run_levels::{linked, view};
use run_memory::{access, memory};
use run_words::Registers;

// R> ( -- x ) drops what it empties
pub fn pop(
    cells: &mut [u32; Machine::CELLS],
    returns: &[u32; Machine::RETURNS],
    rows: &[[u32; linked::ROW]; linked::ROWS],
    copies: &[usize; linked::COPIES],
    regs: Registers,
    next: u32,
    lines: bool,
) -> Registers
    requires { Within regs }
    ensures { (result.left.0 < regs.left.0) × ((reach : Reach) (c : Course) (mem : List ℕ) (operand : ℕ) → Follows reach c lines 0x09 operand next mem cells.old returns.now rows.now copies.now regs mem cells.new returns.now rows.now copies.now result) }
{
    let p = regs.p;
    let r = regs.r;
    let s = regs.s;
    let e = regs.e;
    let checked = checks::can_read(p, r);
    let Ok(()) = checked else {
        return leave::by(regs, checked);
    };
    let lower = checks::s_after_pop(r - 1, s, linked::copy_of_r(copies, s));
    cells[p] = returns[r - 1];
    let mut after = regs;
    after.p = p + 1;
    after.r = r - 1;
    after.s = lower;
    after.e = checks::e_after_pop(lower, s, e, linked::copy_of_s(copies, e));
    after.counter = next;
    after = tally::counted(after, price::price(0x09));
    tally::parted(after, linked::held(rows, lines))
}

// CATCH ( address -- )
pub fn catch(
    cells: &[u32; Machine::CELLS],
    returns: &mut [u32; Machine::RETURNS],
    rows: &mut [[u32; linked::ROW]; linked::ROWS],
    copies: &mut [usize; linked::COPIES],
    regs: Registers,
    next: u32,
) -> Registers
    requires { Within regs }
    ensures { (result.left.0 < regs.left.0) × ((reach : Reach) (c : Course) (lines : Bool) (mem : List ℕ) (operand : ℕ) → Follows reach c lines 0x0B operand next mem cells.now returns.old rows.old copies.old regs mem cells.now returns.new rows.new copies.new result) }
{
    let p = regs.p;
    let r = regs.r;
    let s = regs.s;
    let e = regs.e;
    let checked = checks::can_catch(p, r, s, e);
    let Ok(()) = checked else {
        return leave::by(regs, checked);
    };
    let to = cells[p - 1];
    returns[r] = next;
    linked::called(rows, copies, r, s, next);
    linked::caught(rows, copies, e, s, p - 1, next.wrapping_add(1));
    let mut after = regs;
    after.p = p - 1;
    after.r = r + 1;
    after.s = s + 1;
    after.e = e + 1;
    after.counter = to;
    tally::counted(after, price::price(0x0B))
}

// THROW ( 0 -- ) or ( .. n -- .. n )
pub fn throw(
    cells: &mut [u32; Machine::CELLS],
    rows: &mut [[u32; linked::ROW]; linked::ROWS],
    copies: &[usize; linked::COPIES],
    regs: Registers,
    next: u32,
    lines: bool,
) -> Registers
    requires { Within regs × Catches rows.old copies.now regs }
    ensures { (result.left.0 < regs.left.0) × ((reach : Reach) (c : Course) (mem returns : List ℕ) (operand : ℕ) → Follows reach c lines 0x0D operand next mem cells.old returns rows.old copies.now regs mem cells.new returns rows.new copies.now result) }
{
    let p = regs.p;
    let s = regs.s;
    let e = regs.e;
    let thrown = checks::can_throw(cells, p, e);
    let Ok(throw) = thrown else {
        return leave::by(regs, thrown);
    };
    let mut after = regs;
    match throw {
        // the cycle table's one exception
        None => {
            after.p = p - 1;
            after.counter = next;
            tally::counted(after, 1)
        }
        Some(n) => {
            let kept = linked::copy_of_s(copies, e);
            let at = linked::copy_of_p(copies, e);
            let to = linked::throw_address(rows, e);
            cells[at] = n;
            linked::note(rows, regs.counter, n);
            after.p = at + 1;
            after.r = linked::copy_of_r(copies, kept + 1);
            after.s = kept;
            after.e = e - 1;
            after.counter = to;
            after = tally::counted(after, price::price(0x0D));
            tally::parted(after, linked::held(rows, lines))
        }
    }
}

// FETCH.L, FETCH.W, FETCH.B ( address -- value ); only FETCH.L is to the whole of a cell
pub fn load(
    mem: &[u8],
    cells: &mut [u32; Machine::CELLS],
    rows: &[[u32; linked::ROW]; linked::ROWS],
    regs: Registers,
    code: u8,
    next: u32,
    reach: Reach,
) -> Registers
    requires { Within regs × (OneOf 0x2D 0x2F 0x31 code × ((length mem.now ≡ memory_length) × Bounded reach)) }
    ensures { (result.left.0 < regs.left.0) × ((c : Course) (lines : Bool) (returns copies : List ℕ) (operand : ℕ) → Follows reach c lines code operand next mem.now cells.old returns rows.now copies regs mem.now cells.new returns rows.now copies result) }
{
    let p = regs.p;
    let s = regs.s;
    let e = regs.e;
    let reached = access::reach(cells, reach, 1, code, p);
    let Ok(spot) = reached else {
        return leave::by(regs, reached);
    };
    let mut after = regs;
    after.counter = next;
    match spot {
        Spot::Memory(at) => {
            cells[p - 1] = memory::read_number(mem, at, code);
            tally::counted(after, price::price(code))
        }
        Spot::Own(at) => {
            cells[p - 1] = memory::read_number(mem, at, code);
            tally::counted(after, price::price(code))
        }
        Spot::Local(k) => {
            cells[p - 1] = linked::local(rows, s, k);
            tally::counted(after, price::price(0x2D))
        }
        Spot::Cell(k) => {
            cells[p - 1] = linked::cell(rows, e, k);
            tally::counted(after, price::price(0x2D))
        }
        Spot::View(at) => {
            cells[p - 1] = view::read_in_view(rows, s, e, at, code);
            tally::counted(after, price::price(code))
        }
    }
}

// STORE.L ( value address -- ); it has a function of its own, since one for all widths costs every step (docs/SPEED.md)
pub fn store_long(
    mem: &mut [u8],
    cells: &[u32; Machine::CELLS],
    rows: &mut [[u32; linked::ROW]; linked::ROWS],
    regs: Registers,
    code: u8,
    next: u32,
    reach: Reach,
) -> Registers
    requires { Within regs × (IsStore code × ((length mem.old ≡ memory_length) × Bounded reach)) }
    ensures { (result.left.0 < regs.left.0) × ((c : Course) (lines : Bool) (returns copies : List ℕ) (operand : ℕ) → Follows reach c lines code operand next mem.old cells.now returns rows.old copies regs mem.new cells.now returns rows.new copies result) }
{
    let p = regs.p;
    let s = regs.s;
    let e = regs.e;
    let reached = access::reach(cells, reach, 2, code, p);
    let Ok(spot) = reached else {
        return leave::by(regs, reached);
    };
    let value = cells[p - 2];
    let mut after = regs;
    after.p = p - 2;
    after.counter = next;
    match spot {
        Spot::Memory(at) => {
            let lost = memory::store_number(mem, at, code, value);
            linked::lose(rows, lost);
            tally::counted(after, price::price(code))
        }
        Spot::Own(at) => {
            let lost = memory::store_own(mem, reach.own, reach.end, at, code, value);
            linked::lose(rows, lost);
            tally::counted(after, price::price(code))
        }
        Spot::Local(k) => {
            linked::set_local(rows, s, k, value);
            tally::counted(after, price::price(code))
        }
        Spot::Cell(k) => {
            linked::set_cell(rows, e, k, value);
            tally::counted(after, price::price(code))
        }
        Spot::View(at) => {
            view::write_in_view(rows, s, e, at, code, value);
            tally::counted(after, price::price(code))
        }
    }
}

// STORE.W, STORE.B ( value address -- ); neither is to the whole of a cell
pub fn store_short(
    mem: &mut [u8],
    cells: &[u32; Machine::CELLS],
    rows: &mut [[u32; linked::ROW]; linked::ROWS],
    regs: Registers,
    code: u8,
    next: u32,
    reach: Reach,
) -> Registers
    requires { Within regs × (IsStore code × ((length mem.old ≡ memory_length) × Bounded reach)) }
    ensures { (result.left.0 < regs.left.0) × ((c : Course) (lines : Bool) (returns copies : List ℕ) (operand : ℕ) → Follows reach c lines code operand next mem.old cells.now returns rows.old copies regs mem.new cells.now returns rows.new copies result) }
{
    let p = regs.p;
    let s = regs.s;
    let e = regs.e;
    let reached = access::reach(cells, reach, 2, code, p);
    let Ok(spot) = reached else {
        return leave::by(regs, reached);
    };
    let value = cells[p - 2];
    let mut after = regs;
    after.p = p - 2;
    after.counter = next;
    match spot {
        Spot::Memory(at) => {
            let lost = memory::store_number(mem, at, code, value);
            linked::lose(rows, lost);
            tally::counted(after, price::price(code))
        }
        Spot::Own(at) => {
            let lost = memory::store_own(mem, reach.own, reach.end, at, code, value);
            linked::lose(rows, lost);
            tally::counted(after, price::price(code))
        }
        Spot::Local(k) => {
            linked::set_local(rows, s, k, value);
            tally::counted(after, price::price(code))
        }
        Spot::Cell(k) => {
            linked::set_cell(rows, e, k, value);
            tally::counted(after, price::price(code))
        }
        Spot::View(at) => {
            view::write_in_view(rows, s, e, at, code, value);
            tally::counted(after, price::price(code))
        }
    }
}
