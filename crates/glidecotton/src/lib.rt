// The whole job: an image in, the bench program's text out, for programs and for hosts in other languages.
#![tactic(auto)]

ghost use Rattle.std.specs.Prelude.{◌≡◌};
ghost use Rattle.machine.specs.Refusals.{says};
ghost use Rattle.glidecotton.specs.Bench.{Benches};
ghost use Rattle.glidecotton.specs.Host.{number_of, Hosts};

use machine::Refusal;

// Reads the image into the lent memory, runs it and writes its text: that of the run, or of a refusal for another reason than the memory.
pub fn bench(image: &[u8], memory: &mut [u8], out: &mut [u8]) -> Result<usize, Refusal>
    ensures { Benches image.now memory.old out.old (record { printed = says result; memory = memory.new; out = out.new }) }
{
    let loaded = image::read(image, memory);
    match loaded.verdict {
        Ok(()) => {
            let machine = loaded.machine;
            let ran = run::run_fresh(memory, machine.cells, machine.p, loaded.budget);
            report::report(ran, out)
        }
        Err(refusal) => match refusal {
            Refusal::NotAsAsked => Err(refusal),
            _ => report::refusal(u32::from(refusal), out),
        },
    }
}

// The answer of a bench as one number, which a text's length never meets: no `From`, since only here is such a pair a host's number.
fn number(printed: Result<usize, Refusal>) -> u64
    ensures { result ≡ number_of (says printed) }
{
    match printed {
        Ok(count) => count as u64,
        Err(refusal) => u32::from(refusal) as u64,
    }
}

// The same for a host: 2, or how many bytes of text were written. glidecotton_c exports it.
pub fn glidecotton_bench(image: &[u8], memory: &mut [u8], out: &mut [u8]) -> u64
    ensures { Hosts image.now memory.old out.old (record { number = result; memory = memory.new; out = out.new }) }
{
    number(bench(image, memory, out))
}
