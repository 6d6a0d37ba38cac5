// The line about a file, put from the start of a text. Each function returns where the text then ends; its caller knows that there
// is room.
ghost use Rattle.std.specs.Prelude.{◌≡◌, ◌+◌, ◌≤◌, length};
ghost use Rattle.numbers.specs.Putting.{Appended};
ghost use Rattle.reason.specs.Reason.{found_at, place_told, cut_told, count_told, budget_told, fault_told, good_told};
ghost use Rattle.reason.specs.Reason.{place_room, clause_room, room};

use crate::words;
use image::{Fault, Section, Spans};
use machine::Machine;

// The number that stands at a place, or 0 where the file ends before it does.
#[tactic(auto, unfolding(numbers::specs::Slices::read_at))]
fn found_at(file: &[u8], at: usize) -> u32
    ensures { result ≡ found_at file.now at }
{
    numbers::read::<u32>(file, at).unwrap_or(0)
}

// The section, and the byte of the file.
fn put_place(text: &mut [u8], section: Section, at: usize) -> usize
    requires { place_room ≤ length text.old }
    ensures { (result ≤ place_room) × Appended text.old 0 (place_told section at) text.new result }
{
    let numbers = [at as u64];
    match section {
        Section::Memory => words::put(text, 0, b"section 1 (memory), byte #: ", &numbers),
        Section::Cells => words::put(text, 0, b"section 2 (cells), byte #: ", &numbers),
        Section::Budget => words::put(text, 0, b"section 3 (budget), byte #: ", &numbers),
    }
}

// That the file ends in a section: in its count, or in what is counted.
fn put_cut(text: &mut [u8], from: usize, file: &[u8], section: Section, at: usize) -> usize
    requires { from + clause_room ≤ length text.old }
    ensures { (result ≤ from + clause_room) × Appended text.old from (cut_told file.now section at) text.new result }
{
    let length = file.len() as u64;
    let Some(count) = numbers::read::<u32>(file, at) else {
        let numbers = [length];
        return words::put(
            text,
            from,
            b"a count of 4 bytes should stand here, and the file has # bytes\n",
            &numbers,
        );
    };
    let limits = image::limits_of(section);
    let counted = count as u64;
    let asked = limits.width as u64 * counted;
    let numbers = [counted, asked, length];
    words::put(
        text,
        from,
        b"the count # asks for # bytes after it, and the file has # bytes\n",
        &numbers,
    )
}

// A count outside its limits.
fn put_count(text: &mut [u8], from: usize, file: &[u8], section: Section, at: usize) -> usize
    requires { from + clause_room ≤ length text.old }
    ensures { (result ≤ from + clause_room) × Appended text.old from (count_told file.now section at) text.new result }
{
    let limits = image::limits_of(section);
    let count = found_at(file, at);
    let numbers = [count as u64, limits.fewest as u64, limits.most as u64];
    words::put(
        text,
        from,
        b"the count is #, and # to # is allowed\n",
        &numbers,
    )
}

// A budget past its limit.
fn put_budget(text: &mut [u8], from: usize, file: &[u8], at: usize) -> usize
    requires { from + clause_room ≤ length text.old }
    ensures { (result ≤ from + clause_room) × Appended text.old from (budget_told file.now at) text.new result }
{
    let budget = found_at(file, at);
    let numbers = [budget as u64, Machine::BUDGET as u64];
    words::put(
        text,
        from,
        b"the budget is #, and 0 to # is allowed\n",
        &numbers,
    )
}

pub(crate) fn put_fault(text: &mut [u8], file: &[u8], fault: Fault) -> usize
    requires { room ≤ length text.old }
    ensures { (result ≤ room) × Appended text.old 0 (fault_told file.now fault) text.new result }
{
    match fault {
        Fault::Cut(section, at) => {
            let from = put_place(text, section, at);
            put_cut(text, from, file, section, at)
        }
        Fault::Count(section, at) => {
            let from = put_place(text, section, at);
            put_count(text, from, file, section, at)
        }
        Fault::Budget(at) => {
            let from = put_place(text, Section::Budget, at);
            put_budget(text, from, file, at)
        }
        Fault::Surplus(at) => {
            let numbers = [at as u64];
            words::put(
                text,
                0,
                b"section 3 (budget) ends before byte #, and nothing may follow it\n",
                &numbers,
            )
        }
    }
}

pub(crate) fn put_good(text: &mut [u8], spans: Spans) -> usize
    requires { room ≤ length text.old }
    ensures { (result ≤ room) × Appended text.old 0 (good_told spans) text.new result }
{
    let memory = spans.memory;
    let cells = spans.cells;
    let numbers = [memory.count as u64, cells.count as u64];
    words::put(
        text,
        0,
        b"the image is good; memory bytes: #, cells: #\n",
        &numbers,
    )
}
