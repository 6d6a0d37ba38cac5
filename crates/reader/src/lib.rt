// The reader for hosts in other languages: an image in, a machine, a budget and a memory sum out, as bytes. It stands apart from the run
// of such a machine, so that each of the two exported functions has all that it calls compiled into it; reader_c exports it.
#![tactic(auto)]

ghost use Rattle.state.specs.Answered.{answered};
ghost use Rattle.reader.specs.Reads.{Reads};

use machine::Refusal;

// What stands in the result: the budget and the sum of the memory that was filled, in 8 bytes each.
const RESULT_BUDGET: usize = 0;

const RESULT_SUM: usize = RESULT_BUDGET + 8;

const RESULT: usize = RESULT_SUM + 8;

// State and result are measured first and the file is judged whole, so that only a good call touches anything.
fn read_image(
    image: &[u8],
    memory: &mut [u8],
    state: &mut [u8],
    res: &mut [u8],
) -> Result<(), Refusal>
    ensures { Reads image.now memory.old state.old res.old (record { number = answered result; state = state.new; memory = memory.new; result = res.new }) }
{
    if state.len() != state::SIZE {
        return Err(Refusal::NotAsAsked);
    }
    if res.len() != RESULT {
        return Err(Refusal::NotAsAsked);
    }
    let loaded = image::read(image, memory);
    loaded.verdict?;
    // both buffers are as long as what fills them
    state::give(loaded.machine, state).unwrap();
    numbers::write::<u64>(res, RESULT_BUDGET, loaded.budget as u64).unwrap();
    numbers::write::<u64>(res, RESULT_SUM, loaded.sum).unwrap();
    Ok(())
}

// Reads an image into the lent memory, and hands out the machine, the budget and the memory sum. A call that answers another number
// than 0 touches nothing.
pub fn glidecotton_read_image(
    image: &[u8],
    memory: &mut [u8],
    state: &mut [u8],
    res: &mut [u8],
) -> u64
    ensures { let answer = result in Reads image.now memory.old state.old res.old (record { number = answer; state = state.new; memory = memory.new; result = res.new }) }
{
    state::answered(read_image(image, memory, state, res))
}
