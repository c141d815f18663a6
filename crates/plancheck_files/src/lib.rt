// What the program plancheck does: finds the word among its arguments, reads the files, calls, writes.
#![tactic(auto)]

mod files; // files.rt: files and schedules
mod names; // names.rt: the words, and the uses

ghost use Rattle.std.specs.Prelude.{OnOk};
ghost use Rattle.plancheck_words.specs.Given.{given_plan};
ghost use Rattle.plancheck_words.specs.Words.{Answers};
ghost use Rattle.text_log_words.specs.Words.{SaysOf};
ghost use Rattle.plancheck_files.specs.Printed.{Added, picks_in};

use names::Known;
use plancheck_words::Word;
use std::io;
use std::io::Write;
use std::rt::{Env, Files};
use text_inputs::numerals;
use text_log_words::LogWord;

// The answer to a word about a plan and a schedule, as they are given.
pub fn write_answer<W: Write>(
    writer: &mut W,
    word: Word,
    plan: &[u8],
    schedule: &[u8],
) -> io::Result<()>
    ensures { OnOk result (Added (Answers word (picks_in 65536 schedule.now) (given_plan plan.now))
        (W.contents writer.old) (W.contents writer.new)) }
{
    let mut picks = files::schedule_area();
    let count = files::put_picks(&mut picks, schedule);
    let mut area = files::text_area();
    let length = plancheck_words::answer(word, plan, &picks[..count], &mut area);
    writer.write_all(&area[..length])
}

// The same on standard output.
fn print_answer(rt: &impl Print, word: Word, plan: &[u8], schedule: &[u8]) -> io::Result<()> {
    write_answer(&mut io::writer(rt), word, plan, schedule)
}

// The schedule is the argument itself where it is digits alone or empty, and else in a file.
fn with_schedule<R: Files + Input + Print + Eprint + Alloc>(
    rt: &R,
    word: Word,
    plan: &[u8],
    argument: &[u8],
) -> io::Result<()> {
    if argument.is_empty() || numerals::is_numeral(argument) {
        return print_answer(rt, word, plan, argument);
    }
    let mut bytes = files::schedule_area();
    match files::read_whole(rt, argument, &mut bytes)? {
        None => Ok(()),
        Some(size) => print_answer(rt, word, plan, &bytes[..size]),
    }
}

// The plan is in a file.
fn with_plan<R: Files + Input + Print + Eprint + Alloc>(
    rt: &R,
    word: Word,
    name: &[u8],
    schedule: &[u8],
) -> io::Result<()> {
    let mut plan = files::plan_area();
    match files::read_whole(rt, name, &mut plan)? {
        None => Ok(()),
        Some(size) => with_schedule(rt, word, &plan[..size], files::behind(name, schedule)),
    }
}

// The answer to a word about a log.
pub fn write_log_answer<W: Write>(writer: &mut W, word: LogWord, log: &[u8]) -> io::Result<()>
    ensures { OnOk result (Added (SaysOf word log.now) (W.contents writer.old) (W.contents writer.new)) }
{
    let mut area = files::picture_area();
    let length = text_log_words::answer(word, log, &mut area);
    writer.write_all(&area[..length])
}

// The same on standard output.
fn print_log(rt: &impl Print, word: LogWord, log: &[u8]) -> io::Result<()> {
    write_log_answer(&mut io::writer(rt), word, log)
}

// The log is in a file, of which the first 12,289 bytes decide the answer.
fn with_log<R: Files + Input + Print + Eprint + Alloc>(
    rt: &R,
    word: LogWord,
    name: &[u8],
) -> io::Result<()> {
    let mut log = comtrade_files::log_area();
    match files::read_input(rt, name, &mut log)? {
        None => Ok(()),
        Some(size) => print_log(rt, word, &log[..size]),
    }
}

// The same for the log's data file and configuration file, which get these names.
fn with_names<R: Files + Input + Print + Eprint + Alloc>(
    rt: &R,
    name: &[u8],
    data: &[u8],
    configuration: &[u8],
) -> io::Result<()> {
    let mut log = comtrade_files::log_area();
    match files::read_input(rt, name, &mut log)? {
        None => Ok(()),
        Some(size) => comtrade_files::write_log(rt, &log[..size], data, configuration),
    }
}

// A word with its arguments, in a command of so many words, the program's own name among them.
pub fn obey<R: Files + Input + Print + Eprint + Alloc>(
    rt: &R,
    count: usize,
    word: &[u8],
    first: &[u8],
    second: &[u8],
    third: &[u8],
) -> io::Result<()> {
    match names::find(count, word, second, third) {
        Some(Known::Plan(known)) => with_plan(rt, known, first, second),
        Some(Known::Log(known)) => with_log(rt, known, first),
        Some(Known::Files) => with_names(rt, first, second, third),
        None => names::print_uses(rt),
    }
}

// The third argument of the word.
fn with_second<R: Env + Files + Input + Print + Eprint + Alloc>(
    rt: &R,
    word: &[u8],
    first: &[u8],
    second: &[u8],
) -> io::Result<()> {
    let mut third = program_files::argument_area();
    let length = program_files::argument(rt, 4, &mut third);
    let count = program_files::argument_count(rt);
    obey(rt, count, word, first, second, &third[..length])
}

// The second.
fn with_first<R: Env + Files + Input + Print + Eprint + Alloc>(
    rt: &R,
    word: &[u8],
    first: &[u8],
) -> io::Result<()> {
    let mut second = program_files::argument_area();
    let length = program_files::argument(rt, 3, &mut second);
    with_second(rt, word, first, &second[..length])
}

// The first.
fn with_word<R: Env + Files + Input + Print + Eprint + Alloc>(
    rt: &R,
    word: &[u8],
) -> io::Result<()> {
    let mut first = program_files::argument_area();
    let length = program_files::argument(rt, 2, &mut first);
    with_first(rt, word, &first[..length])
}

// The whole program.
pub fn run<R: Env + Files + Input + Print + Eprint + Alloc>(rt: &R) -> io::Result<()> {
    let mut word = program_files::argument_area();
    let length = program_files::argument(rt, 1, &mut word);
    with_word(rt, &word[..length])
}
