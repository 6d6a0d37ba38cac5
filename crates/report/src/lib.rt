// The bench program's text, as bytes in a lent buffer.
#![tactic(auto)]

mod lines;
mod sizes;

ghost use Rattle.std.specs.Prelude.{◌≡◌};
ghost use Rattle.machine.specs.Refusals.{says};
ghost use Rattle.report.specs.Printing.{printed_in, report_of, refusal_of};

use machine::{Machine, Ran, Refusal};
pub use sizes::LONGEST;

// Copies a text to a buffer that has room for it, and answers how many bytes that were.
#[tactic(auto, unfolding(crate::specs::Printing::printed_in))]
fn print(text: &[u8], out: &mut [u8]) -> Result<usize, Refusal>
    ensures { record { printed = says result; out = out.new } ≡ printed_in text.now out.old }
{
    let count = text.len();
    if out.len() < count {
        return Err(Refusal::NotAsAsked);
    }
    out[..count].copy_from_slice(text);
    Ok(count)
}

// The text of a run, and how many bytes it has. It is made aside first, so that a buffer too short for it stays untouched; a state that
// is none has no text.
#[tactic(auto, unfolding(crate::specs::Printing::report_of))]
pub fn report(ran: Ran, out: &mut [u8]) -> Result<usize, Refusal>
    ensures { record { printed = says result; out = out.new } ≡ report_of ran out.old }
{
    let machine = ran.machine;
    let p = machine.p;
    if Machine::CELLS < p {
        return Err(Refusal::NotAsAsked);
    }
    let numbers = lines::numbers_of(ran);
    let cells = machine.cells;
    let mut text = [0u8; LONGEST];
    let first = lines::put_line(&mut text, numbers);
    let end = lines::put_cells(&mut text, first, &cells[..p]);
    print(&text[..end], out)
}

// The text of a refused image.
pub fn refusal(number: u32, out: &mut [u8]) -> Result<usize, Refusal>
    ensures { record { printed = says result; out = out.new } ≡ refusal_of number out.old }
{
    let mut text = [0u8; sizes::FIELD];
    let end = lines::put_field(&mut text, 0, number as u64, lines::LINE_FEED);
    print(&text[..end], out)
}
