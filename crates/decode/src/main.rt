// Shows messages: reads lines of hex from standard input and prints the kind and the fields of each message, or why it is refused. Its memory does not
// grow with the input: lines are split, read and answered in buffers of one size.

#![tactic(auto)]

mod page;
mod run;

use std::io;

fn main(rt: HostRuntime) -> io::Result<()> {
    let mut input = [0u8; 65536];
    run::begin().answer_all(&rt, &mut input)
}
