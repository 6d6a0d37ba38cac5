// What libreader.a exports: the reader for hosts in other languages.
#![tactic(auto)]

ghost use Rattle.reader.specs.Reads.{Reads};

// Reads an image into the lent memory, and hands out the machine, the budget and the memory sum. A call that answers another number
// than 0 touches nothing.
#[unsafe(no_mangle)]
pub extern "C" fn glidecotton_read_image(
    image: &[u8],
    memory: &mut [u8],
    state: &mut [u8],
    res: &mut [u8],
) -> u64
    ensures { let answer = result in Reads image.now memory.old state.old res.old (record { number = answer; state = state.new; memory = memory.new; result = res.new }) }
{
    reader::glidecotton_read_image(image, memory, state, res)
}
