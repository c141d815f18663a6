// The arrows of a log that a picture of it needs: of the pairs of records of two threads those that no record lies between.
#![tactic(auto)]

pub mod heard; // heard.rt: the newest record of each thread that has a chain to a record
mod implied; // implied.rt: whether other arrows imply an arrow
mod listed; // listed.rt: the needed arrows into two areas

ghost use Rattle.std.specs.Prelude.{◌≡◌, ◌*◌, ◌/◌, ◌≤◌, length};
ghost use Rattle.std.proofs.Math.Option.{none};
ghost use Rattle.format.specs.Version.{version_of};
ghost use Rattle.log_records.specs.Packed.{log_of};
ghost use Rattle.log_records.specs.Refusals.{log_refusal};
ghost use Rattle.log_arrows.specs.Arrows.{AllArrows, Room, pairs};

// Writes the arrows that a log needs, which is not refused, by its version, and returns how many they are: arrow k leads from record `from[k]` to record
// `to[k]`. A record has at most seven.
pub fn needed(version: usize, log: &[u8], from: &mut [u16], to: &mut [u16]) -> usize
    requires accepted { log_refusal log.now ≡ none }
    requires room { Room (7 * (length log.now / 3)) from.old to.old }
    ensures few { result ≤ 7 * (length log.now / 3) }
    ensures arrows { AllArrows (version_of version) (log_of log.now) (pairs result from.new to.new) }
{
    let none = [0u16; 8];
    let mut rows = [none; 4096];
    heard::rows(version, log, &mut rows);
    listed::all(log, &rows, from, to)
}
