// What the programs share: bytes from a reader, arguments, files by their names, and what is said of a file that fails.
#![tactic(auto)]

ghost use Rattle.std.specs.Prelude.{◌≡◌, ◌<◌, ◌≤◌, IfOk, OnOk, length, take};
ghost use Rattle.std.specs.Io.KnownBytes.{Consumes, IsAtEnd};

use std::env::FillError;
use std::io::{ErrorKind, Read, Write};
use std::rt::{Env, Files};
use std::{fs, io};

// Reads until the buffer is full or the input ends, and answers how many bytes it put at the buffer's start. It reads no byte more.
pub fn read_full<R: Read>(reader: &mut R, buffer: &mut [u8]) -> io::Result<usize>
    ensures bound { IfOk result (λ n. n ≤ length buffer.new) }
    ensures bytes { IfOk result (λ n. Consumes (R.remaining reader.old) (R.remaining reader.new) (take n buffer.new)) }
    ensures end { IfOk result (λ n. n < length buffer.new → IsAtEnd (R.remaining reader.new)) }
{
    let mut done = 0;
    for _ in 0..u64::MAX {
        if done == buffer.len() {
            return Ok(done);
        }
        match reader.read(&mut buffer[done..]) {
            Ok(0) => return Ok(done),
            Ok(n) => done += n,
            Err(error) => {
                if error.kind() != ErrorKind::Interrupted {
                    return Err(error);
                }
            }
        }
    }
    // a signal cut short each of 2^64 reads
    Err(io::Error::from(ErrorKind::Interrupted))
}

// How many arguments the program was started with, its own name among them.
pub fn argument_count(rt: &impl Env) -> usize {
    let mut count = 0;
    let mut byte = [0u8; 1];
    for index in 0..usize::MAX {
        match rt.arg(index, &mut byte) {
            Err(FillError::NotPresent) => break,
            Ok(_) | Err(FillError::TooLong) => count = index + 1,
        }
    }
    count
}

// An area that holds every argument that can name a file.
pub fn argument_area() -> [u8; 4096] {
    [0; 4096]
}

// Puts an argument at the start of the buffer, and answers its length: 0 where it is missing or longer than the buffer.
pub fn argument(rt: &impl Env, index: usize, buffer: &mut [u8]) -> usize
    ensures { result ≤ length buffer.new }
{
    rt.arg(index, buffer).unwrap_or(0)
}

// A line on standard error: a name, a colon and what is to be said of it.
fn try_to_say<R: Eprint + Alloc>(rt: &R, name: &[u8], words: &str) -> io::Result<()> {
    let name = String::from_utf8_lossy(rt.alloc(), name)?;
    eprintln!(rt; "{name}: {words}")
}

// The same, or the words alone where memory is short. Where not even those can be written, nobody is left to be told.
pub fn say<R: Eprint + Alloc>(rt: &R, name: &[u8], words: &str) {
    if try_to_say(rt, name, words).is_err() {
        let _ = eprintln!(rt; "{words}");
    }
}

// The words of an error without the system's number, which std writes behind them.
fn without_number(words: &str) -> &str {
    match words.split_once(" (os error ") {
        Some((before, _)) => before,
        None => words,
    }
}

// Says what failed with the file of this name.
pub fn say_failure<R: Eprint + Alloc>(rt: &R, name: &[u8], error: io::Error) {
    match format!(in rt.alloc(); "{error}") {
        Ok(words) => say(rt, name, without_number(words.as_str())),
        Err(_) => say(rt, name, "failed"),
    }
}

// The file of this name, open for reading. A path is text: a name that is not UTF-8 names no file.
fn open_path<R: Files>(rt: &R, name: &[u8]) -> io::Result<R::File> {
    match str::from_utf8(name) {
        Ok(path) => fs::open(rt, path),
        Err(_) => Err(io::Error::from(ErrorKind::InvalidFilename)),
    }
}

// The same, where what fails is said on standard error.
pub fn open<R: Files + Eprint + Alloc>(rt: &R, name: &[u8]) -> Option<R::File> {
    match open_path(rt, name) {
        Ok(file) => Some(file),
        Err(error) => {
            say_failure(rt, name, error);
            None
        }
    }
}

fn write_path<R: Files>(rt: &R, name: &[u8], bytes: &[u8]) -> io::Result<()> {
    match str::from_utf8(name) {
        Ok(path) => fs::write(rt, path, bytes),
        Err(_) => Err(io::Error::from(ErrorKind::InvalidFilename)),
    }
}

// The bytes into the file of this name. What fails is said on standard error.
pub fn write_file<R: Files + Eprint + Alloc>(rt: &R, name: &[u8], bytes: &[u8]) {
    if let Err(error) = write_path(rt, name, bytes) {
        say_failure(rt, name, error);
    }
}

#[cfg(test)]
mod tests {
    use super::*;

    // A reader of ones that gives a byte at a time, is interrupted before each, and fails or ends after some.
    #[derive(Drop)]
    struct Slow {
        left: usize,
        interrupts: bool,
        fails: bool,
    }

    impl Read for Slow {
        fn read(&mut self, buf: &mut [u8]) -> io::Result<usize> {
            self.interrupts = !self.interrupts;
            if self.interrupts {
                return Err(io::Error::from(ErrorKind::Interrupted));
            }
            if self.left == 0 {
                if self.fails {
                    return Err(io::Error::from(ErrorKind::BrokenPipe));
                }
                return Ok(0);
            }
            if buf.is_empty() {
                return Ok(0);
            }
            buf[0] = 1;
            self.left -= 1;
            Ok(1)
        }
    }

    fn make_slow(left: usize, fails: bool) -> Slow {
        Slow {
            left,
            interrupts: false,
            fails,
        }
    }

    #[test]
    fn short_reads_are_joined(rt: HostRuntime) {
        let mut buffer = [0u8; 5];
        let read = read_full(&mut make_slow(3, false), &mut buffer);
        assert_eq!(rt; read.unwrap_or(9), 3);
        assert_eq!(rt; buffer, [1, 1, 1, 0, 0]);
    }

    #[test]
    fn a_full_buffer_is_read_no_further(rt: HostRuntime) {
        let mut buffer = [0u8; 2];
        let mut reader = make_slow(2, true);
        let read = read_full(&mut reader, &mut buffer);
        assert_eq!(rt; read.unwrap_or(9), 2);
    }

    #[test]
    fn a_failed_read_is_told(rt: HostRuntime) {
        let mut buffer = [0u8; 5];
        let read = read_full(&mut make_slow(3, true), &mut buffer);
        assert!(rt; read.is_err());
    }
}
