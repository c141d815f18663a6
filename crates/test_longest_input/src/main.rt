// The printing program once more, held to an input of which every byte counts: a plan of 5,192 bytes that passes and 4,097 picks. One byte fewer is a run.
#![tactic(auto)]

use std::io;

fn main(rt: HostRuntime) -> io::Result<()> {
    shotlist_files::print_shot_list(&rt)
}
