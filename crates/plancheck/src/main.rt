// The program plancheck, held to the race of document 01's plan P: the plan as text on standard input, the schedule as digits.
#![tactic(auto)]

use std::io;

fn main(rt: HostRuntime) -> io::Result<()> {
    plancheck_files::run(&rt)
}
