// What libglidecotton.a exports: the whole job for hosts in other languages.
#![tactic(auto)]

ghost use Rattle.glidecotton.specs.Host.{Hosts};

// Reads the image into the lent memory, runs it and writes its text: 2, or how many bytes of text were written.
#[unsafe(no_mangle)]
pub extern "C" fn glidecotton_bench(image: &[u8], memory: &mut [u8], out: &mut [u8]) -> u64
    ensures { Hosts image.now memory.old out.old (record { number = result; memory = memory.new; out = out.new }) }
{
    glidecotton::glidecotton_bench(image, memory, out)
}
