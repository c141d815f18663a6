// The words of the program, and its uses.
use plancheck_words::Word;
use std::io;
use text_inputs::numerals;
use text_log_words::LogWord;

// A word about a plan or about a log, or the one that writes two files.
#[derive(Clone, Copy)]
pub enum Known {
    Plan(Word),
    Log(LogWord),
    Files,
}

// A word that asks for a plan alone.
fn of_plan(word: &[u8]) -> Option<Known> {
    let known = match word {
        b"check" => Word::Check,
        b"show" => Word::Show,
        b"read" => Word::Read,
        b"canonical" => Word::Canonical,
        b"bound" => Word::Bound,
        _ => return None,
    };
    Some(Known::Plan(known))
}

// A word that asks for a plan and a schedule.
fn of_schedule(word: &[u8]) -> Option<Known> {
    let known = match word {
        b"play" => Word::Play,
        b"states" => Word::States,
        b"log" => Word::Log,
        b"witness" => Word::Witness,
        b"charge" => Word::Charge,
        _ => return None,
    };
    Some(Known::Plan(known))
}

// A word that asks for a file and a number.
fn of_number(word: &[u8], number: usize) -> Option<Known> {
    match word {
        b"judge" => Some(Known::Log(LogWord::Judge(number))),
        b"diagram" => Some(Known::Log(LogWord::Diagram(number))),
        b"interleavings" => Some(Known::Plan(Word::Interleavings(number))),
        _ => of_schedule(word),
    }
}

// A word with three arguments, of which the last may have to be a number.
fn of_three(word: &[u8], third: &[u8]) -> Option<Known> {
    match word {
        b"comtrade" => Some(Known::Files),
        b"preview" if numerals::is_numeral(third) => {
            Some(Known::Plan(Word::Preview(numerals::number_of(third))))
        }
        _ => None,
    }
}

// The word of this name in a command of so many words, the program's own name among them.
pub fn find(count: usize, word: &[u8], second: &[u8], third: &[u8]) -> Option<Known> {
    match count {
        3 => of_plan(word),
        4 if numerals::is_numeral(second) => of_number(word, numerals::number_of(second)),
        4 => of_schedule(word),
        5 => of_three(word, third),
        _ => None,
    }
}

// A line to each use.
pub fn print_uses(rt: &impl Print) -> io::Result<()> {
    rt.write_all(
        b"plancheck read PLAN > PACKED\n\
plancheck show PLAN\n\
plancheck check PLAN\n\
plancheck canonical PLAN > PACKED\n\
plancheck play PLAN SCHEDULE\n\
plancheck states PLAN SCHEDULE\n\
plancheck preview PLAN SCHEDULE PICK\n\
plancheck log PLAN SCHEDULE > LOG\n\
plancheck judge LOG VERSION\n\
plancheck diagram LOG VERSION > SVG\n\
plancheck comtrade LOG DATA CONFIGURATION\n\
plancheck witness PLAN SCHEDULE\n\
plancheck bound PLAN\n\
plancheck charge PLAN SCHEDULE\n\
plancheck interleavings PLAN PICKS\n\
A file is its path, or - for standard input. A PLAN is text or packed bytes;\n\
a SCHEDULE is a file of digits or packed picks, or its digits, as in 0000010.\n\
VERSION is the plan's, 0 or 1; PICKS is how many an interleaving has at most.\n",
    )
}
