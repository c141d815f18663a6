// A play in words: the shot list of its run, and of a run that stopped for want of a key the two records between which nothing leads.
#![tactic(auto)]

ghost use Rattle.answers.specs.Answer.{answered};
ghost use Rattle.text_play_lines.specs.Told.{PlayTold};
ghost use Rattle.text_play_lines.specs.Inner.Written.{RunRoom, WroteRun};

use refusals::Refusal;
use run_outcome::Stop;

// The lines of a run whose records these are.
fn put_run(
    area: &mut [u8],
    log: &[u8],
    stop: Stop,
    picks: usize,
    moves: usize,
    records: usize,
) -> usize
    requires { RunRoom log.now area.old stop records }
    ensures { WroteRun log.now stop picks moves records area.old area.new result }
{
    let at = text_run_lines::put_run(area, log, stop, picks, moves, records);
    match stop {
        Stop::Race => text_race_lines::put_unordered(area, at, log, records - 1),
        Stop::End => at,
        Stop::NoRoom(_) => at,
    }
}

// Every plan and schedule gets the text of its play at the start of an area of 131,072 bytes or more, and the text's length; or a refusal of number 1 to 9.
pub fn play_text(plan: &[u8], schedule: &[u8], area: &mut [u8]) -> Result<usize, Refusal>
    ensures { PlayTold plan.now schedule.now area.old (answered result) area.new }
{
    if area.len() < 131072 {
        return Ok(0);
    }
    let mut log = [0u8; 12288];
    let played = play::play(plan, schedule, &mut log);
    played.checked?;
    let outcome = played.outcome;
    let end = play::outcome::record_bytes(outcome.records);
    Ok(put_run(
        area,
        &log[0..end],
        outcome.stop,
        outcome.picks,
        outcome.moves,
        outcome.records,
    ))
}
