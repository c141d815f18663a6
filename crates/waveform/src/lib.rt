// The entry comtrade (document 02, E14): a log as an ASCII data file of IEEE C37.111-1999, the monitors as digital values.
#![tactic(auto)]

mod lengths; // lengths.rt: the length of a file by the count of records

ghost use Rattle.std.specs.Prelude.{◌<◌, ◌≤◌, ◌≡◌, length};
ghost use Rattle.log_records.specs.Packed.{log_of, record_count};
ghost use Rattle.text.specs.Inner.Wrote.{Wrote};
ghost use Rattle.answers.specs.Answer.{answered};
ghost use Rattle.text_sample_lines.specs.DataFile.{sample_lines};
ghost use Rattle.waveform.specs.Comtrade.{file_of, comtrade_answer, comtrade_area};

use refusals::{Reason, Refusal};

// A line for each record of a log.
fn put_samples(area: &mut [u8], log: &[u8]) -> usize
    requires { (length log.now ≤ 12288) × (length (file_of log.now) ≤ length area.old) }
    ensures { Wrote area.old 0 (sample_lines (log_of log.now) (record_count log.now)) area.new result }
{
    let mut at = 0;
    let mut end = text_sample_lines::no_values();
    for index in 0..log.len() / 3 {
        let columns = log_packing::columns_at(log, index);
        at = text_sample_lines::put_next_sample(area, at, index + 1, &mut end, columns);
    }
    at
}

// The length of the file, which then begins the area; its other bytes keep their values. Where the log is refused, or the area is too short, it stays as
// it was.
pub fn comtrade(log: &[u8], area: &mut [u8]) -> Result<usize, Refusal>
    ensures answer { answered result ≡ comtrade_answer log.now area.old }
    ensures area { area.new ≡ comtrade_area log.now area.old }
{
    if log_refusals::wrong_length(log) {
        return Err(Reason::LogLength.at(0));
    }
    let count = log.len() / 3;
    let wrong = log_refusals::lowest_wrong(log);
    if wrong < count {
        return Err(Reason::Record.at(wrong));
    }
    if area.len() < lengths::file_length(count) {
        return Err(Reason::FileArea.at(0));
    }
    let at = put_samples(area, log);
    Ok(text::put_byte(area, at, 0x1A))
}
