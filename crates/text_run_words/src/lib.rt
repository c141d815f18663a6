// What the tools answer to a plan and a schedule, in words, each at the start of an area.
#![tactic(auto)]

pub mod told; // told.rt: plays, their logs and their threads' states, and previews

ghost use Rattle.std.specs.Prelude.{◌≤◌, length};
ghost use Rattle.text.specs.Inner.Wrote.{Wrote};
ghost use Rattle.answers.specs.Answer.{answered};
ghost use Rattle.text_answer_lines.specs.Inner.Told.{Told};
ghost use Rattle.text_run_words.specs.Texts.{cents_lines, charge_lines, charge_text, WitnessText};

use refusals::Refusal;

fn put_cents(area: &mut [u8], plain: usize, more: usize) -> usize
    requires { 200 ≤ length area.old }
    ensures { Wrote area.old 0 (cents_lines plain more) area.new result }
{
    let at = text::put_number(area, 0, plain);
    let at = text::put_word(area, at, b" cents\n");
    let at = text::put_number(area, at, more);
    text::put_word(area, at, b" cents with the one-millisecond option\n")
}

fn put_charges(
    area: &mut [u8],
    plain: Result<usize, Refusal>,
    option: Result<usize, Refusal>,
) -> usize
    requires { 200 ≤ length area.old }
    ensures { Wrote area.old 0 (charge_lines (answered plain) (answered option)) area.new result }
{
    match plain {
        Err(refusal) => text_answer_lines::put_refusal(area, refusal),
        Ok(cents) => match option {
            Err(refusal) => text_answer_lines::put_refusal(area, refusal),
            Ok(more) => put_cents(area, cents, more),
        },
    }
}

// What a run is charged, without the option and with it.
pub fn charge_text(plan: &[u8], schedule: &[u8], area: &mut [u8]) -> usize
    requires { 200 ≤ length area.old }
    ensures { Wrote area.old 0 (charge_text plan.now schedule.now) area.new result }
{
    let plain = charge::charge(plan, schedule, false);
    let option = charge::charge(plan, schedule, true);
    put_charges(area, plain, option)
}

// The schedule after which two threads stand at a race.
pub fn witness_text(plan: &[u8], schedule: &[u8], area: &mut [u8]) -> usize
    requires { 4097 ≤ length area.old }
    ensures { Told (WitnessText plan.now schedule.now) area.old area.new result }
{
    let mut picks = [0u8; 4096];
    let answered = witness::witness(plan, schedule, &mut picks);
    match answered {
        Err(refusal) => text_answer_lines::put_refusal(area, refusal),
        Ok(length) => text_inputs::schedules::put_digit_line(area, 0, &picks[0..length]),
    }
}
