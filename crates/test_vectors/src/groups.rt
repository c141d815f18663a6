// The cases of a file, each behind its length of two bytes, and how many of them differ.
ghost use Rattle.std.specs.Prelude.{◌≤◌};

use std::io::Read;
use std::rt::Files;
use std::{fs, io};

#[derive(Clone, Copy)]
pub struct Tally {
    pub cases: u64,
    pub differ: u64,
}

// Whether the case of the given size with which the file goes on is right. A file that ends within it is damaged.
fn read_case<R: Read, F: Fn(&[u8]) -> bool>(file: &mut R, right: F, size: usize) -> io::Result<bool>
    requires bound { size ≤ 65535 }
    requires callable { F.IsAlwaysCallable right }
{
    let mut buffer = [0u8; 65536];
    let got = program_files::read_full(file, &mut buffer[..size])?;
    Ok(got == size && right(&buffer[..size]))
}

// Whether the next case of the file is right; none where the file is at its end.
fn next_case<R: Read, F: Fn(&[u8]) -> bool>(file: &mut R, right: F) -> io::Result<Option<bool>>
    requires { F.IsAlwaysCallable right }
{
    let mut head = [0u8; 2];
    match program_files::read_full(file, &mut head)? {
        0 => Ok(None),
        1 => Ok(Some(false)),
        _ => Ok(Some(read_case(file, right, byte_numbers::half(&head, 0))?)),
    }
}

// The tally of a file that is open, of no more than a million cases.
fn tally_in<R: Read, F: Fn(&[u8]) -> bool>(file: &mut R, right: F) -> io::Result<Tally>
    requires { F.IsAlwaysCallable right }
{
    let mut cases: u64 = 0;
    let mut differ: u64 = 0;
    for _ in 0..1000000u64 {
        match next_case(file, &right)? {
            None => break,
            Some(same) => {
                cases += 1;
                if !same {
                    differ += 1;
                }
            }
        }
    }
    Ok(Tally { cases, differ })
}

// The same of a file of the current folder. A file that cannot be opened counts as a case that differs.
pub fn tally_of<R: Files, F: Fn(&[u8]) -> bool>(rt: &R, path: &str, right: F) -> io::Result<Tally>
    requires { F.IsAlwaysCallable right }
{
    match fs::open(rt, path) {
        Ok(mut file) => tally_in(&mut file, right),
        Err(_) => Ok(Tally {
            cases: 1,
            differ: 1,
        }),
    }
}

// Both tallies together; no count of cases comes near the end of 64 bits.
pub fn both(first: Tally, second: Tally) -> Tally {
    Tally {
        cases: first.cases.wrapping_add(second.cases),
        differ: first.differ.wrapping_add(second.differ),
    }
}
