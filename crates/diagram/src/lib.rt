// The picture of a log as the judge sees it: the arrows that are needed, and in red the access that the judge names and the last earlier one that conflicts
// with it and from which no chain leads to it.
#![tactic(auto)]

ghost use Rattle.std.specs.Prelude.{length};
ghost use Rattle.format.specs.Version.{version_of};
ghost use Rattle.answers.specs.Answer.{answered};
ghost use Rattle.diagram.specs.Picture.{Pictured};
ghost use Rattle.diagram.specs.Inner.Drawing.{Judged, NamedBy, Roomy, WroteArrows};

use refusals::{Reason, Refusal};
use text_diagram_elements::Race;

// Writes the text of a log's picture at the area's start, and returns its length. A record has at most seven arrows.
fn put_picture(version: usize, log: &[u8], race: Option<Race>, area: &mut [u8]) -> usize
    requires { Roomy version log.now race (length area.old) }
    ensures { WroteArrows (version_of version) log.now race area.old area.new result }
{
    let mut from = [0u16; 28672];
    let mut to = [0u16; 28672];
    let count = log_arrows::needed(version, log, &mut from, &mut to);
    text_diagram::put_diagram(area, 0, log, &from, &to, count, race)
}

// The answer to a log that is not refused: refusal 27 for an area that has no room for every picture of so many records.
fn draw(version: usize, log: &[u8], race: Option<Race>, area: &mut [u8]) -> Result<usize, Refusal>
    requires { Judged version log.now race }
    ensures { Pictured version log.now area.old (answered result) area.new }
{
    if area.len() < 1792 + 654 * (log.len() / 3) {
        return Err(Reason::PictureArea.at(0));
    }
    Ok(put_picture(version, log, race, area))
}

// The answer to a log in which the judge names an access.
fn draw_race(version: usize, log: &[u8], access: usize, area: &mut [u8]) -> Result<usize, Refusal>
    requires { NamedBy version log.now access }
    ensures { Pictured version log.now area.old (answered result) area.new }
{
    let earlier = text_judge_lines::search::last_conflict(version, log, access);
    let race = Some(Race {
        write: earlier,
        access,
    });
    draw(version, log, race, area)
}

// Every log of a version gets its picture at the start of the area, and the text's length; or refusal 14, 11 or 12 as the judge gives it, or 27.
pub fn diagram(version: usize, log: &[u8], area: &mut [u8]) -> Result<usize, Refusal>
    ensures { Pictured version log.now area.old (answered result) area.new }
{
    let judged = judge::judge(version, log)?;
    match judged {
        None => draw(version, log, None, area),
        Some(index) => draw_race(version, log, index, area),
    }
}
