// What the program plancheck answers to a word about a log: the whole text.
#![tactic(auto)]

ghost use Rattle.std.specs.Prelude.{◌≤◌, ◌≡◌, length, take};
ghost use Rattle.text_judge_lines.specs.Told.{LogTold};
ghost use Rattle.diagram.specs.Picture.{Picture};
ghost use Rattle.text_answer_lines.specs.Inner.Told.{Told};
ghost use Rattle.text_log_words.specs.Words.{LogText, Answered};

// The words whose answer is a text about a log, with the version that the judge is told.
#[derive(Clone, Copy)]
pub enum LogWord {
    Judge(usize),
    Diagram(usize),
}

// The judge's answer.
fn judge_text(version: usize, log: &[u8], area: &mut [u8]) -> usize
    requires { 2680576 ≤ length area.old }
    ensures { Told (LogText LogTold version log.now) area.old area.new result }
{
    let answered = text_judge_lines::judge_text(version, log, area);
    text_answer_lines::settle(area, answered)
}

// The picture of the log as SVG text.
fn diagram_text(version: usize, log: &[u8], area: &mut [u8]) -> usize
    requires { 2680576 ≤ length area.old }
    ensures { Told (LogText Picture version log.now) area.old area.new result }
{
    let answered = diagram::diagram(version, log, area);
    text_answer_lines::settle(area, answered)
}

// The answer to a log, at the start of an area of 2,680,576 bytes or more; its length. A shorter area stays as it was.
pub fn answer(word: LogWord, log: &[u8], area: &mut [u8]) -> usize
    ensures answered { Answered word log.now area.old area.new result }
    ensures within { (result ≤ length area.new) × (result ≡ length (take result area.new)) }
{
    if area.len() < 2680576 {
        return 0;
    }
    match word {
        LogWord::Judge(version) => judge_text(version, log, area),
        LogWord::Diagram(version) => diagram_text(version, log, area),
    }
}
