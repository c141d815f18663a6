// The judge's answer to a log in words: the access that it names and the last earlier one that conflicts with it and from which no chain leads to it.
#![tactic(auto)]

pub mod search; // search.rt: which earlier access that is

ghost use Rattle.std.specs.Prelude.{◌≤◌, length};
ghost use Rattle.format.specs.Version.{version_of};
ghost use Rattle.answers.specs.Answer.{answered};
ghost use Rattle.text.specs.Inner.Wrote.{Wrote};
ghost use Rattle.text_judge_lines.specs.Told.{ordered_line, JudgeTold};
ghost use Rattle.text_judge_lines.specs.Inner.Search.{Named, WroteConflict};

use refusals::Refusal;

// The line of a log in which the conflicting accesses are ordered.
fn put_ordered(area: &mut [u8]) -> usize
    requires { 200 ≤ length area.old }
    ensures { Wrote area.old 0 ordered_line area.new result }
{
    let at = text::put_word(area, 0, b"all conflicting accesses are ordered");
    text::put_byte(area, at, 10)
}

// The lines of the access that the judge names.
fn put_named(area: &mut [u8], version: usize, log: &[u8], later: usize) -> usize
    requires named { Named (version_of version) log.now later }
    requires room { 200 ≤ length area.old }
    ensures { WroteConflict (version_of version) log.now later area.old area.new result }
{
    let earlier = search::last_conflict(version, log, later);
    let first = log_packing::columns_at(log, earlier);
    let second = log_packing::columns_at(log, later);
    text_race_lines::put_conflict(area, 0, earlier, first, later, second)
}

// Every log of a version gets its text at the start of an area of 200 bytes or more, and the text's length; or refusal 14, 11 or 12 as the judge gives it.
pub fn judge_text(version: usize, log: &[u8], area: &mut [u8]) -> Result<usize, Refusal>
    ensures { JudgeTold version log.now area.old (answered result) area.new }
{
    if area.len() < 200 {
        return Ok(0);
    }
    let judged = judge::judge(version, log)?;
    match judged {
        None => Ok(put_ordered(area)),
        Some(index) => Ok(put_named(area, version, log, index)),
    }
}
