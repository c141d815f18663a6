// The judge of a log (document 01, "The log and its order"): refusals 14, 11 and 12, then one pass by clocks.
#![tactic(auto)]

mod pass; // pass.rt: the pass by clocks

ghost use Rattle.std.specs.Prelude.{◌<◌};
ghost use Rattle.format.specs.Version.{version_of};
ghost use Rattle.log_conflicts.specs.Judge.{Answers, AnswersTold};
ghost use Rattle.judge.specs.Answer.{answered};

use refusals::{Reason, Refusal};

// The answer to any version and any bytes: refusal 14, 11 or 12; else, by the chains of that version, the lowest index of a plain access with no chain from
// an earlier one that it conflicts with, or none exactly when the log has no such access.
pub fn judge(version: usize, log: &[u8]) -> Result<Option<usize>, Refusal>
    ensures { AnswersTold version log.now (answered result) }
{
    if version > 1 {
        return Err(Reason::Version.at(0));
    }
    judge_version(log, version)
}

// The same for a version that is not refused.
fn judge_version(log: &[u8], version: usize) -> Result<Option<usize>, Refusal>
    ensures { Answers (version_of version) log.now (answered result) }
{
    if log_refusals::wrong_length(log) {
        return Err(Reason::LogLength.at(0));
    }
    let wrong = log_refusals::lowest_wrong(log);
    if wrong < log.len() / 3 {
        return Err(Reason::Record.at(wrong));
    }
    if log.len() / 3 <= 64 {
        return Ok(pass::short(log, version));
    }
    if log.len() / 3 <= 128 {
        return Ok(pass::middle(log, version));
    }
    Ok(pass::long(log, version))
}
