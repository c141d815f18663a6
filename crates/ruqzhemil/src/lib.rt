// The entries for programs in C, Rust and other languages, each with a number for its answer; the crate ruqzhemil_c hands them on.
// The upper half of a number is 0 for an answer, 1 for the entry's other answer, 2 for a refusal, with number * 65536 + place in the lower half.
#![tactic(auto)]

ghost use Rattle.std.specs.Prelude.{◌≡◌, not, eqb};
ghost use Rattle.plan_packed.specs.Check.{refusal};
ghost use Rattle.rules.specs.Play.{played, area_after};
ghost use Rattle.abi_convention.specs.Convention.{check_number, answer_number};
ghost use Rattle.abi_outcome.specs.Play.{play_number};
ghost use Rattle.abi_numbers.specs.Numbers.{read_number, JudgeReturns, WitnessReturns, FirstReturns, NextReturns};
ghost use Rattle.preview.specs.Preview.{previewed};
ghost use Rattle.abi_preview.specs.Bytes.{preview_number};
ghost use Rattle.abi_preview.specs.Bytes as preview;
ghost use Rattle.canonical.specs.Canonical.{canonical_answer, canonical_area};
ghost use Rattle.show.specs.Show.{show_answer, show_area};
ghost use Rattle.read.specs.Read.{read_answer, read_area};
ghost use Rattle.costs.specs.Bound.{bounded};
ghost use Rattle.charge.specs.Charge.{charged};
ghost use Rattle.waveform.specs.Comtrade.{comtrade_answer, comtrade_area};
ghost use Rattle.abi_outcome.specs.Play.{out_after};
ghost use Rattle.abi_version.specs.Version.{version};

// 0 for a plan that passes; else the refusal.
pub fn ruqzhemil_check(plan: &[u8]) -> u64
    ensures { result ≡ check_number (refusal plan.now) }
{
    let checked = plan::check(plan);
    abi_convention::of_check(checked)
}

// 0 for a run, whose records begin the log area and whose outcome is in `out`; else the refusal, and neither area changed.
pub fn ruqzhemil_play(plan: &[u8], schedule: &[u8], log: &mut [u8], out: &mut [u8; 40]) -> u64
    ensures answer { result ≡ play_number (played plan.now schedule.now log.old) }
    ensures area { log.new ≡ area_after plan.now schedule.now log.old }
    ensures bytes { out.new ≡ out_after out.old (played plan.now schedule.now log.old) }
{
    let played = play::play(plan, schedule, log);
    abi_outcome::write_play(out, played)
}

// Of a log of plans of this version, 0 or 1: 0 for a log without an unordered access; the other answer is the index of the first one.
pub fn ruqzhemil_judge(version: u64, log: &[u8]) -> u64
    ensures { JudgeReturns version log.now result }
{
    let judgement = judge::judge(version as usize, log);
    abi_numbers::of_judge(judgement)
}

// 0 for a preview, whose bytes are in `out`; else the refusal, and no byte changed.
pub fn ruqzhemil_preview(plan: &[u8], schedule: &[u8], pick: u64, out: &mut [u8; 8]) -> u64
    ensures answer { result ≡ preview_number (previewed plan.now schedule.now pick) }
    ensures bytes { out.new ≡ preview.out_after out.old (previewed plan.now schedule.now pick) }
{
    let previewed = preview::preview(plan, schedule, pick as usize);
    abi_preview::write(out, previewed)
}

// The length in bytes of the plan, written in the one way, which begins the area; the area's other bytes, and all of them after a refusal, are as they were.
pub fn ruqzhemil_canonical(plan: &[u8], area: &mut [u8]) -> u64
    ensures answer { result ≡ answer_number (canonical_answer plan.now area.old) }
    ensures area { area.new ≡ canonical_area plan.now area.old }
{
    let answered = canonical::canonical(plan, area);
    abi_convention::of_answer(answered)
}

// The length in bytes of the plan's text, which begins the area; the area's other bytes, and all of them after a refusal, are as they were.
pub fn ruqzhemil_show(plan: &[u8], area: &mut [u8]) -> u64
    ensures answer { result ≡ answer_number (show_answer plan.now area.old) }
    ensures area { area.new ≡ show_area plan.now area.old }
{
    let answered = show::show(plan, area);
    abi_convention::of_answer(answered)
}

// The length in bytes of the plan that the text is, written in the one way, which begins the area; the other answer is the line and the column where
// reading stops. The area's other bytes, and all of them where it stops or after a refusal, are as they were.
pub fn ruqzhemil_read(text: &[u8], area: &mut [u8]) -> u64
    ensures answer { result ≡ read_number (read_answer text.now area.old) }
    ensures area { area.new ≡ read_area text.now area.old }
{
    let answer = read::read(text, area);
    abi_numbers::of_read(answer)
}

// The length in bytes of the log's COMTRADE data file, which begins the area; the area's other bytes, and all of them after a refusal, are as they were.
pub fn ruqzhemil_comtrade(log: &[u8], area: &mut [u8]) -> u64
    ensures answer { result ≡ answer_number (comtrade_answer log.now area.old) }
    ensures area { area.new ≡ comtrade_area log.now area.old }
{
    let answered = waveform::comtrade(log, area);
    abi_convention::of_answer(answered)
}

// From a run that stopped for a missing key, the length of the schedule after which the two accesses stand side by side, which begins the area; the area's
// other bytes, and all of them after a refusal, are as they were.
pub fn ruqzhemil_witness(plan: &[u8], schedule: &[u8], area: &mut [u8]) -> u64
    ensures { WitnessReturns plan.now schedule.now area.old result area.new }
{
    let answered = witness::witness(plan, schedule, area);
    abi_convention::of_answer(answered)
}

// The length of the first schedule of at most n picks that is listed, which begins the area; the area's other bytes, and all of them after a refusal, are as
// they were.
pub fn ruqzhemil_first_interleaving(plan: &[u8], n: u64, area: &mut [u8]) -> u64
    ensures { FirstReturns plan.now n area.old result area.new }
{
    let answered = interleavings::first_interleaving(plan, n as usize, area);
    abi_convention::of_answer(answered)
}

// The length of the schedule that follows a listed one, which begins the area; the other answer is that the list is over. The area's other bytes, and all of
// them where the list is over or after a refusal, are as they were.
pub fn ruqzhemil_next_interleaving(plan: &[u8], n: u64, schedule: &[u8], area: &mut [u8]) -> u64
    ensures { NextReturns plan.now n schedule.now area.old result area.new }
{
    let next = interleavings::next_interleaving(plan, n as usize, schedule, area);
    abi_numbers::of_next(next)
}

// How many moves a plan can need at most: no schedule makes more.
pub fn ruqzhemil_bound(plan: &[u8]) -> u64
    ensures { result ≡ answer_number (bounded plan.now) }
{
    let answered = bound::bound(plan);
    abi_convention::of_answer(answered)
}

// What a run of the schedule on the plan is charged, in cents; an option of 0 is without, any other with.
pub fn ruqzhemil_charge(plan: &[u8], schedule: &[u8], option: u64) -> u64
    ensures { result ≡ answer_number (charged plan.now schedule.now (not (eqb option 0))) }
{
    let answered = charge::charge(plan, schedule, option != 0);
    abi_convention::of_answer(answered)
}

// The version of these entries.
pub fn ruqzhemil_version() -> u64
    ensures { result ≡ version }
{
    abi_version::version()
}
