// The program comtrade: a log on standard input, the names of the data file and of the configuration file as arguments.
#![tactic(auto)]

use std::io;

fn main(rt: HostRuntime) -> io::Result<()> {
    if program_files::argument_count(&rt) != 3 {
        return rt.write_all(b"usage: comtrade DATA CONFIGURATION < LOG\n");
    }
    let mut first = program_files::argument_area();
    let data = program_files::argument(&rt, 1, &mut first);
    let mut second = program_files::argument_area();
    let configuration = program_files::argument(&rt, 2, &mut second);
    comtrade_files::write_pair(&rt, &first[..data], &second[..configuration])
}
