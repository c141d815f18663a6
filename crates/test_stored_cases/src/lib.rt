// One stored case of each kind, as tools/vectors.py writes it, held to the entries of the static library and to `play_and_judge`. Numbers have the high
// byte first.
//
// A case of a play: the lengths of plan, schedule and log area, two bytes each; what check, play and judge return, eight bytes each, judge for the run's
// records, or for none, where it is told the version in the plan's first bits; the 40 bytes for the outcome; then plan, schedule and records. A case of
// a log: the version that judge is told and what it returns, eight bytes each; then the log. A case of a data file: the length of the area, four bytes,
// and of the log, two; what comtrade returns, eight; then the log and the file, empty where it is refused. A case of a charge: the lengths of plan and
// schedule, two bytes each; the option and what charge returns, eight each; then plan and schedule. A case of a preview: the same with the pick and what
// preview returns, and the eight bytes of the preview before the plan. A case of a plan: the lengths of plan and area, two bytes each; what canonical
// returns, eight; then the plan and the written plan, empty where it is refused. A case of a text: the same of show and the text. A case of a read: the
// same of read, with the text in the plan's place. A case of a bound: what bound returns, eight bytes; then the plan. A case of a witness: the lengths of
// plan, schedule and area, two bytes each; what witness returns, eight; then plan, schedule and the written schedule, empty where it is refused. A case of
// an interleaving: the lengths of plan, schedule and area, two bytes each; a byte, 0 for first_interleaving; n and what is returned, eight bytes each; then
// plan, schedule and the written schedule, empty where there is none. A case that ends before the parts that its lengths name is wrong.
#![tactic(auto)]

ghost use Rattle.std.specs.Prelude.{◌+◌, ◌≤◌, length};

use refusals::Refusal;

// What every lent area is filled with before a play.
const FILL: u8 = 165;

// The area that is lent for a plan, a schedule or a log.
fn lent_area() -> [u8; 16384] {
    [FILL; 16384]
}

// The area that is lent for a plan as text.
fn text_area() -> [u8; 65536] {
    [FILL; 65536]
}

// The area that is lent for a data file.
fn file_area() -> [u8; 317269] {
    [FILL; 317269]
}

// A number of eight bytes.
fn number_at(case: &[u8], at: usize) -> u64
    requires { at + 8 ≤ length case.now }
{
    let high = byte_numbers::half(case, at) * 65536 + byte_numbers::half(case, at + 2);
    let low = byte_numbers::half(case, at + 4) * 65536 + byte_numbers::half(case, at + 6);
    (high * 4294967296 + low) as u64
}

// The version of the library.
pub fn version_case(case: &[u8]) -> bool {
    if case.len() != 8 {
        return false;
    }
    ruqzhemil::ruqzhemil_version() == number_at(case, 0)
}

// Whether the area begins with the records, and its other bytes are as they were filled.
fn begins(area: &[u8], records: &[u8]) -> bool {
    match area.strip_prefix(records) {
        Some(rest) => rest.iter().all(|byte| *byte == FILL),
        None => false,
    }
}

// What check returns for the plan.
pub fn check_case(case: &[u8]) -> bool {
    if case.len() < 70 {
        return false;
    }
    let end = 70 + byte_numbers::half(case, 0);
    if case.len() < end {
        return false;
    }
    ruqzhemil::ruqzhemil_check(&case[70..end]) == number_at(case, 6)
}

// What play returns, the 40 bytes and the whole log area.
pub fn play_case(case: &[u8]) -> bool {
    if case.len() < 70 {
        return false;
    }
    let end = 70 + byte_numbers::half(case, 0);
    let last = end + byte_numbers::half(case, 2);
    let size = byte_numbers::half(case, 4);
    if case.len() < last {
        return false;
    }
    if 16384 < size {
        return false;
    }
    let mut area = lent_area();
    let mut out = [FILL; 40];
    let got = ruqzhemil::ruqzhemil_play(
        &case[70..end],
        &case[end..last],
        &mut area[..size],
        &mut out,
    );
    got == number_at(case, 14) && out.as_slice() == &case[30..70] && begins(&area, &case[last..])
}

// The version that a plan names in its first bits, 0 for none.
fn version_of(plan: &[u8]) -> u64 {
    match plan.first() {
        Some(byte) => (*byte / 16) as u64,
        None => 0,
    }
}

// What judge returns for the records of the run, where it is told the plan's version.
pub fn run_case(case: &[u8]) -> bool {
    if case.len() < 70 {
        return false;
    }
    let end = 70 + byte_numbers::half(case, 0);
    let last = end + byte_numbers::half(case, 2);
    if case.len() < last {
        return false;
    }
    let version = version_of(&case[70..end]);
    ruqzhemil::ruqzhemil_judge(version, &case[last..]) == number_at(case, 22)
}

// A judgement as judge returns it: no number, place or index of one comes near 65,536.
fn judged_number(judgement: Result<Option<usize>, Refusal>) -> u64 {
    match judgement {
        Ok(None) => 0,
        Ok(Some(index)) => 4294967296 + (index % 65536) as u64,
        Err(refused) => {
            8589934592 + (refused.number() % 65536 * 65536 + refused.place % 65536) as u64
        }
    }
}

// What play_and_judge says: judge's answer to the records of the run, or the play's own refusal.
pub fn both_case(case: &[u8]) -> bool {
    if case.len() < 70 {
        return false;
    }
    let end = 70 + byte_numbers::half(case, 0);
    let last = end + byte_numbers::half(case, 2);
    let size = byte_numbers::half(case, 4);
    if case.len() < last {
        return false;
    }
    if 16384 < size {
        return false;
    }
    let mut area = lent_area();
    let both = agreement::play_and_judge(&case[70..end], &case[end..last], &mut area[..size]);
    let got = judged_number(both.judgement);
    let played = number_at(case, 14);
    if played == 0 {
        got == number_at(case, 22)
    } else {
        got == played
    }
}

// What judge returns for a log, where it is told a version.
pub fn log_case(case: &[u8]) -> bool {
    if case.len() < 16 {
        return false;
    }
    ruqzhemil::ruqzhemil_judge(number_at(case, 0), &case[16..]) == number_at(case, 8)
}

// What comtrade returns for a log, and the whole area.
pub fn file_case(case: &[u8]) -> bool {
    if case.len() < 14 {
        return false;
    }
    let size = byte_numbers::half(case, 0) * 65536 + byte_numbers::half(case, 2);
    let end = 14 + byte_numbers::half(case, 4);
    if case.len() < end {
        return false;
    }
    if 317269 < size {
        return false;
    }
    let mut area = file_area();
    let got = ruqzhemil::ruqzhemil_comtrade(&case[14..end], &mut area[..size]);
    got == number_at(case, 6) && begins(&area, &case[end..])
}

// What charge returns for a plan, a schedule and an option.
pub fn charge_case(case: &[u8]) -> bool {
    if case.len() < 20 {
        return false;
    }
    let end = 20 + byte_numbers::half(case, 0);
    let last = end + byte_numbers::half(case, 2);
    if case.len() != last {
        return false;
    }
    let got = ruqzhemil::ruqzhemil_charge(&case[20..end], &case[end..last], number_at(case, 4));
    got == number_at(case, 12)
}

// What preview returns for a plan, a schedule and a pick, and the eight bytes.
pub fn preview_case(case: &[u8]) -> bool {
    if case.len() < 28 {
        return false;
    }
    let end = 28 + byte_numbers::half(case, 0);
    let last = end + byte_numbers::half(case, 2);
    if case.len() != last {
        return false;
    }
    let mut out = [FILL; 8];
    let pick = number_at(case, 4);
    let got = ruqzhemil::ruqzhemil_preview(&case[28..end], &case[end..last], pick, &mut out);
    got == number_at(case, 12) && out.as_slice() == &case[20..28]
}

// What canonical returns for a plan, and the whole area.
pub fn plan_case(case: &[u8]) -> bool {
    if case.len() < 12 {
        return false;
    }
    let end = 12 + byte_numbers::half(case, 0);
    let size = byte_numbers::half(case, 2);
    if case.len() < end {
        return false;
    }
    if 16384 < size {
        return false;
    }
    let mut area = lent_area();
    let got = ruqzhemil::ruqzhemil_canonical(&case[12..end], &mut area[..size]);
    got == number_at(case, 4) && begins(&area, &case[end..])
}

// What show returns for a plan, and the whole area.
pub fn text_case(case: &[u8]) -> bool {
    if case.len() < 12 {
        return false;
    }
    let end = 12 + byte_numbers::half(case, 0);
    let size = byte_numbers::half(case, 2);
    if case.len() < end {
        return false;
    }
    let mut area = text_area();
    let got = ruqzhemil::ruqzhemil_show(&case[12..end], &mut area[..size]);
    got == number_at(case, 4) && begins(&area, &case[end..])
}

// What read returns for a text, and the whole area.
pub fn read_case(case: &[u8]) -> bool {
    if case.len() < 12 {
        return false;
    }
    let end = 12 + byte_numbers::half(case, 0);
    let size = byte_numbers::half(case, 2);
    if case.len() < end {
        return false;
    }
    if 16384 < size {
        return false;
    }
    let mut area = lent_area();
    let got = ruqzhemil::ruqzhemil_read(&case[12..end], &mut area[..size]);
    got == number_at(case, 4) && begins(&area, &case[end..])
}

// What bound returns for a plan.
pub fn bound_case(case: &[u8]) -> bool {
    if case.len() < 8 {
        return false;
    }
    ruqzhemil::ruqzhemil_bound(&case[8..]) == number_at(case, 0)
}

// The first interleaving, or the one that follows the schedule.
fn interleaving(going: bool, plan: &[u8], n: u64, schedule: &[u8], area: &mut [u8]) -> u64 {
    if going {
        ruqzhemil::ruqzhemil_next_interleaving(plan, n, schedule, area)
    } else {
        ruqzhemil::ruqzhemil_first_interleaving(plan, n, area)
    }
}

// What first_interleaving or next_interleaving returns, and the whole area.
pub fn interleaving_case(case: &[u8]) -> bool {
    if case.len() < 23 {
        return false;
    }
    let end = 23 + byte_numbers::half(case, 0);
    let last = end + byte_numbers::half(case, 2);
    let size = byte_numbers::half(case, 4);
    if case.len() < last {
        return false;
    }
    if 512 < size {
        return false;
    }
    let mut area = [FILL; 512];
    let n = number_at(case, 7);
    let lent = &mut area[..size];
    let got = interleaving(case[6] != 0, &case[23..end], n, &case[end..last], lent);
    got == number_at(case, 15) && begins(&area, &case[last..])
}

// What witness returns for a plan and a schedule, and the whole area.
pub fn witness_case(case: &[u8]) -> bool {
    if case.len() < 14 {
        return false;
    }
    let end = 14 + byte_numbers::half(case, 0);
    let last = end + byte_numbers::half(case, 2);
    let size = byte_numbers::half(case, 4);
    if case.len() < last {
        return false;
    }
    if 16384 < size {
        return false;
    }
    let mut area = lent_area();
    let got = ruqzhemil::ruqzhemil_witness(&case[14..end], &case[end..last], &mut area[..size]);
    got == number_at(case, 6) && begins(&area, &case[last..])
}
