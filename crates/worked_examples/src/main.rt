// Runs the cases of document 01 and cases at the edges of its rules, and prints what each gives. The file `stdout` beside src/ says what
// they should give, from 01. The cases that 01 marks (*) are proved too (specs/MarkedCases.antt): `run_cases` promises them.

#![tactic(auto)]

ghost use Rattle.worked_examples.specs.MarkedCases.{MarkedCasesHold};

mod fragment_header;
mod message;
mod print;
mod record;

use std::io;

fn run_cases(rt: &impl Print) -> io::Result<()>
    ensures marked { MarkedCasesHold }
{
    fragment_header::run(rt)?;
    message::run(rt)?;
    record::run(rt)
}

fn main(rt: HostRuntime) -> io::Result<()> {
    run_cases(&rt)
}
