// Runs recorded lines from standard input through the reassembly and prints what each fragment did (01, "The bench program"). Its memory does not
// grow with the input: lines are split, read and answered in fixed buffers.

#![tactic(auto)]

mod printing;
mod run;

use crate::run::Run;
use bench_joining::front;
use std::io::{self, Read};

// The octets of the buffers for input and for text.
const BUFFER_OCTETS: usize = 65536;

fn main(rt: HostRuntime) -> io::Result<()> {
    let mut input = [0u8; BUFFER_OCTETS];
    let mut run = Run::new();
    run.put_heading();
    let mut reader = rt.reader();
    // A proved loop has to end, so the loop counts its turns up to a number that no run uses up.
    for _ in 0..u64::MAX {
        let n = reader.read(&mut input)?;
        if n == 0 {
            break;
        }
        run.take(&rt, front(&input, n))?;
    }
    run.finish(&rt)
}
