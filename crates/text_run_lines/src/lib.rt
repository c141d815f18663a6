// The lines of a run (document 01, "Shot list"): one for each record, and the last line.
#![tactic(auto)]

ghost use Rattle.std.specs.Prelude.{◌≤◌, ◌++◌, length};
ghost use Rattle.log_records.specs.Packed.{log_of};
ghost use Rattle.play.specs.Answer.{stop_of};
ghost use Rattle.text.specs.Inner.Wrote.{Wrote};
ghost use Rattle.text_record_lines.specs.Lines.{record_lines};
ghost use Rattle.text_last_lines.specs.Lines.{outcome_line};

use run_outcome::Stop;

// A line for each record of a log. None is over 28 bytes.
fn put_log(area: &mut [u8], log: &[u8]) -> usize
    requires { (length log.now ≤ 12288) × (131072 ≤ length area.old) }
    ensures wrote { Wrote area.old 0 (record_lines 0 (log_of log.now)) area.new result }
    ensures within { result ≤ 114688 }
{
    let mut at = 0;
    for index in 0..log.len() / 3 {
        let columns = log_packing::columns_at(log, index);
        at = text_record_lines::put_record(area, at, index, columns);
    }
    at
}

// The lines of the records of a log, and the last line.
pub fn put_run(
    area: &mut [u8],
    log: &[u8],
    stop: Stop,
    picks: usize,
    moves: usize,
    records: usize,
) -> usize
    requires { (length log.now ≤ 12288) × (131072 ≤ length area.old) }
    ensures { Wrote area.old 0 (record_lines 0 (log_of log.now) ++ outcome_line (stop_of stop) picks moves records)
        area.new result }
{
    let at = put_log(area, log);
    text_last_lines::put_outcome(area, at, stop, picks, moves, records)
}
