// What the printing program does (document 01, "Shot list"): reads a plan length, a plan and a schedule, and writes the run's records and outcome, or
// the refusal.
#![tactic(auto)]

ghost use Rattle.std.specs.Prelude.{ℕ, ◌≡◌, List, take, OnOk, IfSome};
ghost use Rattle.std.specs.Io.KnownBytes.{Appends};
ghost use Rattle.text_shot_list.specs.Printed.{printed};

use std::io;
use std::io::{Read, Write};

// The text of an input, however long, of which `size` bytes were read into the buffer.
fn write_text<W: Write>(buffer: &[u8; 9291], size: usize, writer: &mut W) -> io::Result<()>
    ensures { (input : List ℕ) → take 9291 input ≡ take size buffer.now
        → OnOk result (Appends (W.contents writer.old) (W.contents writer.new) (printed input)) }
{
    let mut text = [0u8; 131072];
    let length = text_shot_list::shot_list_read(buffer, size, &mut text);
    writer.write_all(&text[..length])
}

// From a reader to a writer. The first 9,291 bytes decide what is written: a length, a plan of at most 5,192 bytes, and one pick more than a schedule may
// have.
pub fn write_shot_list<R: Read, W: Write>(reader: &mut R, writer: &mut W) -> io::Result<()>
    ensures { OnOk result (IfSome (R.remaining reader.old)
        (λ input. Appends (W.contents writer.old) (W.contents writer.new) (printed input))) }
{
    let mut buffer = [0u8; 9291];
    let size = program_files::read_full(reader, &mut buffer)?;
    write_text(&buffer, size, writer)
}

// From standard input to standard output.
pub fn print_shot_list(rt: &(impl Input + Print)) -> io::Result<()> {
    write_shot_list(&mut rt.reader(), &mut io::writer(rt))
}
