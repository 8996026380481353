// The tag at a terminal: runs a script of set-up lines and calls from standard input through the tag, and prints an answer line for each call, so that
// an engineer can try a tag without hardware. Its memory does not grow with the input.

#![tactic(auto)]

mod calls;
mod numbers;
mod own;
mod printing;
mod run;
mod set_up;
mod words;

use crate::run::Run;
use crate::words::front;
use std::io::{self, Read};

// The octets of the buffers for input and for text.
const BUFFER_OCTETS: usize = 65536;
// The most characters of a line, without its line feed.
const LONGEST_LINE: usize = 2048;
// The most octets that a line can carry, and with that of an area of the tag.
const LINE_OCTETS: usize = 1024;

fn main(rt: HostRuntime) -> io::Result<()> {
    printing::print_heading(&rt)?;
    let mut input = [0u8; BUFFER_OCTETS];
    let mut run = Run::new();
    let mut reader = rt.reader();
    // A proved loop has to end, so the loop counts its turns up to a number that no run uses up.
    for _ in 0..u64::MAX {
        let n = reader.read(&mut input)?;
        if n == 0 {
            break;
        }
        run.take(&rt, front(&input, n))?;
    }
    run.finish(&rt)
}
