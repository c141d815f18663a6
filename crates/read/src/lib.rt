// The entry `read`: a text, in document 01's own notation, as a packed plan in the one way that document 02, E5, names.
#![tactic(auto)]

ghost use Rattle.std.specs.Prelude.{◌<◌, ◌≤◌, ◌≡◌, length};
ghost use Rattle.plan_writer.specs.Inner.Held.{held_program};
ghost use Rattle.read.specs.Read.{failed_at, read_answer, read_area};
ghost use Rattle.read.specs.Answer.{failure_of, known_kind, answered};
ghost use Rattle.read.specs.Inner.Begun.{Held, PlanTold, OfText, TokensTold, Tried, Lengths, Lent, told_answer};
ghost use Rattle.plan_packed.specs.Inner.Steps.{Ordered};
ghost use Rattle.plan_parser.specs.Inner.Reading.{Sized};

use plan_lexer::places;
use plan_reader::HeldPlan;

// Why `read` writes no plan.
#[derive(Clone, Copy, Debug, PartialEq, Eq)]
pub enum ReadError {
    // The area is too short for it.
    Short,
    // The text is no plan: the line and the column, both from 1, of the token where reading stops, and why.
    Failed {
        line: usize,
        column: usize,
        kind: usize,
        reason: usize,
    },
}

// The most tokens that a text can have, its end included.
const MOST: usize = 16384;

// The most terms that a plan can have; arrays for every text have room for so many words.
const TERMS: usize = 1024;

// The kind of a text with too many tokens, past those of `plan_reader`.
pub const TOKENS: usize = 4;

// Reading stops at a token.
fn failed(text: &[u8], token: usize, kind: usize, reason: usize) -> Result<usize, ReadError>
    ensures { answered result ≡ failed_at text.now token (failure_of kind reason) }
{
    let spot = places::place(text, token);
    Err(ReadError::Failed {
        line: spot.line,
        column: spot.column,
        kind,
        reason,
    })
}

// The kinds from 3 on are one.
fn known(kind: usize) -> usize
    ensures { result ≡ known_kind kind }
{
    if kind < 3 { kind } else { 3 }
}

// Why no plan is written, by the number of a token.
#[derive(Clone, Copy)]
enum Stop {
    // The area is too short for it.
    Short,
    // Reading stops at this token, by a fault of this kind for this reason.
    Token {
        at: usize,
        kind: usize,
        reason: usize,
    },
}

// A plan that is held in arrays, where the area has room for it.
fn write(
    plan: HeldPlan,
    words: &[usize],
    roots: &[usize; 32],
    parameters: &[usize; 32],
    area: &mut [u8],
) -> Result<usize, Stop>
    requires { Held plan.version plan.mask plan.procedures plan.left words.now roots.now parameters.now }
    ensures { PlanTold (held_program plan.version plan.mask plan.procedures words.now roots.now parameters.now)
        area.old area.new result }
{
    let terms = words.len() - plan.left;
    let length = 8 + 2 * plan.procedures + 5 * terms;
    if area.len() < length {
        return Err(Stop::Short);
    }
    plan_writer::write(
        plan.version,
        plan.mask,
        plan.procedures,
        terms,
        words,
        roots,
        parameters,
        area,
    );
    Ok(length)
}

// The tokens of a text. There is no answer where the arrays are too short.
fn read_tokens(
    tokens: &[u8],
    counts: &mut [u8],
    words: &mut [usize],
    goals: &mut [u16],
    values: &mut [usize],
    area: &mut [u8],
) -> Option<Result<usize, Stop>>
    requires of_text { OfText tokens.now × (length tokens.now ≤ 16384) × (length tokens.now < length counts.old) }
    requires ordered { Ordered words.old × Sized goals.old values.old words.old }
    ensures { TokensTold tokens.now (length words.old) area.old area.new result }
{
    let mut roots = [0usize; 32];
    let mut parameters = [0usize; 32];
    let outcome = plan_reader::read_plan(
        tokens,
        counts,
        words,
        &mut roots,
        &mut parameters,
        goals,
        values,
    )?;
    match outcome {
        Ok(plan) => Some(write(plan, words, &roots, &parameters, area)),
        Err(fault) => Some(Err(Stop::Token {
            at: fault.at,
            kind: known(fault.kind),
            reason: fault.reason,
        })),
    }
}

// A text, by arrays that are lent.
fn read_into(
    text: &[u8],
    tokens: &mut [u8],
    counts: &mut [u8],
    words: &mut [usize],
    goals: &mut [u16],
    values: &mut [usize],
    area: &mut [u8],
) -> Option<Result<usize, Stop>>
    requires { Lent tokens.old counts.old words.old goals.old values.old }
    ensures { Tried text.now (length words.old) area.old area.new result }
{
    let count = plan_lexer::lex(text, tokens);
    if tokens.len() < count {
        if words.len() < TERMS {
            return None;
        }
        return Some(Err(Stop::Token {
            at: MOST,
            kind: TOKENS,
            reason: 0,
        }));
    }
    read_tokens(&tokens[0..count], counts, words, goals, values, area)
}

// By arrays of these lengths, of which there are four, since filling longer ones takes longer than reading a short text. There is no
// answer where they are too short.
fn in_arrays<
    const MOST_TOKENS: usize,
    const COUNTS: usize,
    const WORDS: usize,
    const GOALS: usize,
    const VALUES: usize,
>(text: &[u8], area: &mut [u8]) -> Option<Result<usize, Stop>>
    requires { Lengths MOST_TOKENS COUNTS WORDS GOALS VALUES }
    ensures { Tried text.now WORDS area.old area.new result }
{
    let mut tokens = [0u8; MOST_TOKENS];
    let mut counts = [0u8; COUNTS];
    let mut words = [0usize; WORDS];
    let mut goals = [0u16; GOALS];
    let mut values = [0usize; VALUES];
    read_into(
        text,
        &mut tokens,
        &mut counts,
        &mut words,
        &mut goals,
        &mut values,
        area,
    )
}

// The smallest arrays that are likely to do for a text.
fn likely(text: &[u8]) -> usize {
    match text.len() {
        0..=191 => 0,
        192..=639 => 1,
        640..=1535 => 2,
        _ => 3,
    }
}

// By arrays of this size, 0 to 3, or by the next ones where they are too short. It calls itself, and so the compiler keeps the frames of all arrays out of its
// own: a short text pays for short arrays alone.
fn read_from(text: &[u8], area: &mut [u8], size: usize) -> Result<usize, Stop>
    ensures { (told_answer text.now result ≡ read_answer text.now area.old)
        × (area.new ≡ read_area text.now area.old) }
{
    match size {
        // for most texts of up to 191 bytes
        0 => match in_arrays::<192, 193, 64, 96, 48>(text, area) {
            Some(told) => told,
            None => read_from(text, area, 1),
        },
        // for most texts of up to 639 bytes
        1 => match in_arrays::<640, 641, 192, 256, 96>(text, area) {
            Some(told) => told,
            None => read_from(text, area, 2),
        },
        // for most texts of up to 1,535 bytes
        2 => match in_arrays::<1536, 1537, 384, 512, 192>(text, area) {
            Some(told) => told,
            None => read_from(text, area, 3),
        },
        // for every text
        _ => in_arrays::<MOST, 16385, TERMS, 8408, 3108>(text, area).unwrap(),
    }
}

// The answer, a token by its line and its column.
fn answer(text: &[u8], told: Result<usize, Stop>) -> Result<usize, ReadError>
    ensures { answered result ≡ told_answer text.now told }
{
    match told {
        Ok(written) => Ok(written),
        Err(Stop::Short) => Err(ReadError::Short),
        Err(Stop::Token { at, kind, reason }) => failed(text, at, kind, reason),
    }
}

// Every text and every area gets an answer: the length of the plan, with which the area then begins, and otherwise is as it was; or that the area is too short
// for it; or the place where reading stops and why; and then no byte of the area changed.
pub fn read(text: &[u8], area: &mut [u8]) -> Result<usize, ReadError>
    ensures answer { answered result ≡ read_answer text.now area.old }
    ensures area { area.new ≡ read_area text.now area.old }
{
    let told = read_from(text, area, likely(text));
    answer(text, told)
}
