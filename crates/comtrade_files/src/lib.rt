// What the program comtrade does (document 02, E14): reads a log, and writes its data file and its configuration file, or says what refuses it.
#![tactic(auto)]

ghost use Rattle.std.specs.Prelude.{◌≤◌};

use refusals::Refusal;
use std::io;
use std::rt::Files;

// An area for a log, with one byte more than a log may have.
pub fn log_area() -> [u8; 12289] {
    [0; 12289]
}

// An area for every data file.
fn file_area() -> [u8; 317269] {
    [0; 317269]
}

// The configuration file for so many samples.
fn write_configuration<R: Files + Eprint + Alloc>(rt: &R, name: &[u8], samples: usize)
    requires { samples ≤ 4096 }
{
    let mut area = [0u8; 1024];
    let length = text_configuration::put_configuration(&mut area, samples);
    program_files::write_file(rt, name, &area[..length]);
}

// The lines of a refusal, on standard output.
fn say_refusal(rt: &impl Print, refusal: Refusal) -> io::Result<()> {
    let mut area = [0u8; 200];
    let length = text_refusal_lines::put_refusal_lines(
        &mut area,
        0,
        refusal.number(),
        refusal.place,
    );
    rt.write_all(&area[..length])
}

// The data file and the configuration file of a log, under these names. A file that cannot be written is said on standard error.
pub fn write_log<R: Files + Print + Eprint + Alloc>(
    rt: &R,
    log: &[u8],
    data: &[u8],
    configuration: &[u8],
) -> io::Result<()> {
    let mut area = file_area();
    match waveform::comtrade(log, &mut area) {
        Err(refusal) => say_refusal(rt, refusal),
        Ok(length) => {
            program_files::write_file(rt, data, &area[..length]);
            write_configuration(rt, configuration, log.len() / 3);
            Ok(())
        }
    }
}

// Those of the log on standard input, of which the first 12,289 bytes decide what is written.
pub fn write_pair<R: Input + Files + Print + Eprint + Alloc>(
    rt: &R,
    data: &[u8],
    configuration: &[u8],
) -> io::Result<()> {
    let mut log = log_area();
    let size = program_files::read_full(&mut rt.reader(), &mut log)?;
    write_log(rt, &log[..size], data, configuration)
}
