// The printing program.
#![tactic(auto)]

use std::io;

fn main(rt: HostRuntime) -> io::Result<()> {
    shotlist_files::print_shot_list(&rt)
}
