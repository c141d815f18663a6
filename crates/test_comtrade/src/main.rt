// A test of the program comtrade: its two files are written into the current folder, read back and printed, the configuration file first.
#![tactic(auto)]

use std::io;
use std::rt::Files;

fn print_file<R: Files + Print + Eprint + Alloc>(rt: &R, name: &[u8]) -> io::Result<()> {
    match program_files::open(rt, name) {
        None => Ok(()),
        Some(mut file) => {
            let mut buffer = [0u8; 65536];
            let size = program_files::read_full(&mut file, &mut buffer)?;
            rt.write_all(&buffer[..size])
        }
    }
}

fn main(rt: HostRuntime) -> io::Result<()> {
    comtrade_files::write_pair(&rt, b"run.dat", b"run.cfg")?;
    print_file(&rt, b"run.cfg")?;
    print_file(&rt, b"run.dat")
}
