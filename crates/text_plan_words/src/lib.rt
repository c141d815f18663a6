// What the tools answer to a plan alone, in words, each at the start of an area.
#![tactic(auto)]

ghost use Rattle.std.specs.Prelude.{◌≤◌, length};
ghost use Rattle.text.specs.Inner.Wrote.{Wrote};
ghost use Rattle.text_plan_words.specs.Texts.{check_text, plan_text, show_text, canonical_text, bound_line, bound_text};

// Whether a plan passes.
pub fn check_text(plan: &[u8], area: &mut [u8]) -> usize
    requires { 200 ≤ length area.old }
    ensures { Wrote area.old 0 (check_text plan.now) area.new result }
{
    match plan::check(plan) {
        Err(refusal) => text_answer_lines::put_refusal(area, refusal),
        Ok(()) => text::put_word(area, 0, b"passes\n"),
    }
}

// The plan itself, where it passes.
pub fn plan_text(plan: &[u8], area: &mut [u8]) -> usize
    requires { 5192 ≤ length area.old }
    ensures { Wrote area.old 0 (plan_text plan.now) area.new result }
{
    match plan::check(plan) {
        Err(refusal) => text_answer_lines::put_refusal(area, refusal),
        Ok(()) => text::put_word(area, 0, plan),
    }
}

// A plan as text.
pub fn show_text(plan: &[u8], area: &mut [u8]) -> usize
    requires { 574501 ≤ length area.old }
    ensures { Wrote area.old 0 (show_text plan.now) area.new result }
{
    let answered = show::show(plan, area);
    text_answer_lines::settle(area, answered)
}

// A plan in the one way.
pub fn canonical_text(plan: &[u8], area: &mut [u8]) -> usize
    requires { 5192 ≤ length area.old }
    ensures { Wrote area.old 0 (canonical_text plan.now) area.new result }
{
    let answered = canonical::canonical(plan, area);
    text_answer_lines::settle(area, answered)
}

fn put_bound(area: &mut [u8], moves: usize) -> usize
    requires { 200 ≤ length area.old }
    ensures { Wrote area.old 0 (bound_line moves) area.new result }
{
    let at = text::put_word(area, 0, b"at most ");
    let at = text::put_number(area, at, moves);
    text::put_word(area, at, b" moves\n")
}

// How many moves a plan can need.
pub fn bound_text(plan: &[u8], area: &mut [u8]) -> usize
    requires { 200 ≤ length area.old }
    ensures { Wrote area.old 0 (bound_text plan.now) area.new result }
{
    match bound::bound(plan) {
        Err(refusal) => text_answer_lines::put_refusal(area, refusal),
        Ok(moves) => put_bound(area, moves),
    }
}
