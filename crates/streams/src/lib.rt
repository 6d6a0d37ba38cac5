// Standard input and output for the programs. A program has no exit status: what can't be read or written it says on standard error.
#![tactic(auto)]

ghost use Rattle.streams.specs.Input.{Within};

use std::io;
use std::io::Read;

// Reads until the buffer is full or the input ends, and answers how many bytes that were; none where a read failed, which is told.
// A read that fails is no end of the input: what came before it is no whole file.
pub fn read(rt: &(impl io::Input + Eprint), buffer: &mut [u8]) -> Option<usize>
    ensures { Within buffer.new result }
{
    let mut input = rt.reader();
    let mut done = 0;
    // no `for`: a pass goes on by as many bytes as its read brings
    while done < buffer.len() {
        let Ok(more) = input.read(&mut buffer[done..]) else {
            let _ = rt.eprintln("bench: the image can't be read");
            return None;
        };
        if more == 0 {
            break;
        }
        done += more;
    }
    Some(done)
}

// Writes the first bytes of a text. The count stands beside the text, since a text cut to it would ask of each program a proof that its
// count is within.
pub fn write(rt: &(impl Print + Eprint), text: &[u8], count: usize) {
    if text.len() < count {
        return;
    }
    let Err(error) = rt.write_all(&text[..count]) else {
        return;
    };
    // no signal ends a program whose reader is gone
    if error.kind() == io::ErrorKind::BrokenPipe {
        let _ = rt.eprintln("bench: the text could not be written: its reader is gone");
        return;
    }
    let _ = rt.eprintln("bench: the text can't be written");
}
