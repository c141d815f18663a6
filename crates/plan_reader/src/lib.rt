// A plan's tokens, read into arrays: its terms, and the root and the parameter count of each procedure.
#![tactic(auto)]

ghost use Rattle.std.specs.Prelude.{◌+◌, ◌≤◌, ◌<◌, ◌≡◌, length};
ghost use Rattle.plan_packed.specs.Inner.Steps.{Ordered};
ghost use Rattle.text.specs.Inner.Wrote.{Wrote};
ghost use Rattle.plan_parsing.specs.Parser.{ahead};
ghost use Rattle.plan_parser.specs.Inner.Reading.{Sized};
ghost use Rattle.plan_parsing.specs.Plan.{counts_from, counts_of};
ghost use Rattle.plan_reader.specs.Inner.Reading.{count_at, is_next, Fielded, Marked, Headed, Going, Keeps, Goes, ReadAs};

use byte_numbers::wide;
use plan_notation::tokens;
use plan_parser::Parsed;
use std::ops::ControlFlow;

// The version, the mask of volatile fields, and the token behind both.
#[derive(Clone, Copy)]
struct Heading {
    version: usize,
    mask: usize,
    at: usize,
}

// The token of an index; behind the last there is the text's end.
fn ahead(tokens: &[u8], index: usize) -> usize
    ensures { (result ≡ ahead tokens.now index) × (result < 256) }
{
    if index < tokens.len() {
        return wide(tokens[index]);
    }
    tokens::END
}

// The parameter count at a token, if it is the word `procedure`.
fn put_count(tokens: &[u8], index: usize, area: &mut [u8], at: usize) -> usize
    requires { (index < 65536) × (at < length area.old) }
    ensures { Wrote area.old at (count_at tokens.now index) area.new result }
{
    if ahead(tokens, index) != tokens::PROCEDURE {
        return at;
    }
    text::put_byte(area, at, ahead(tokens, index + 3) as u8)
}

// Those at all tokens, behind the counts that are there.
fn put_further(tokens: &[u8], area: &mut [u8], from: usize) -> usize
    requires { (length tokens.now ≤ 16384) × (from + length tokens.now ≤ length area.old) }
    ensures { Wrote area.old from (counts_from tokens.now) area.new result }
{
    let mut next = from;
    for index in 0..tokens.len() {
        next = put_count(tokens, index, area, next);
    }
    next
}

// The parameter counts of all procedures, and how many there are; main, which is first, has none.
fn put_counts(tokens: &[u8], area: &mut [u8]) -> usize
    requires { (length tokens.now ≤ 16384) × (length tokens.now < length area.old) }
    ensures { Wrote area.old 0 (counts_of tokens.now) area.new result }
{
    let next = text::put_byte(area, 0, 0);
    put_further(tokens, area, next)
}

// A field that is higher than the last.
fn is_next(last: usize, token: usize) -> bool
    ensures { result ≡ is_next last token }
{
    last < token && token < 32
}

// Fields, each higher than the one before; field 0 is volatile in every plan.
fn fields(tokens: &[u8], version: usize, from: usize) -> Heading
    requires { (from ≤ length tokens.now) × (length tokens.now ≤ 16384) }
    ensures { Fielded tokens.now from result × (result.version ≡ version) }
{
    let mut mask = 2147483648;
    let mut last = 0;
    for at in from..tokens.len() {
        let token = wide(tokens[at]);
        if !is_next(last, token) {
            return Heading { version, mask, at };
        }
        mask += 1usize << (31 - token);
        last = token;
    }
    Heading {
        version,
        mask,
        at: tokens.len(),
    }
}

// The volatile fields behind field 0, if the text names any.
fn volatiles(tokens: &[u8], version: usize, at: usize) -> Heading
    requires { (at ≤ length tokens.now) × (length tokens.now ≤ 16384) }
    ensures { Marked tokens.now version at result }
{
    if ahead(tokens, at) != tokens::VOLATILE {
        return Heading {
            version,
            mask: 2147483648,
            at,
        };
    }
    fields(tokens, version, at + 1)
}

// The version, 1 where the text names none, and the volatile fields; a version over 1 is none.
fn header(tokens: &[u8]) -> Heading
    requires { (0 < length tokens.now) × (length tokens.now ≤ 16384) }
    ensures { Headed tokens.now result }
{
    if ahead(tokens, 0) != tokens::VERSION {
        return volatiles(tokens, 1, 0);
    }
    let version = ahead(tokens, 1);
    if version > 1 {
        return Heading {
            version: 2,
            mask: 0,
            at: 1,
        };
    }
    volatiles(tokens, version, 2)
}

// A plan, held in the arrays: its version, the mask of its volatile fields, how many procedures it has, and how many terms there is room for.
#[derive(Clone, Copy, Debug, PartialEq, Eq)]
pub struct HeldPlan {
    pub version: usize,
    pub mask: usize,
    pub procedures: usize,
    pub left: usize,
}

// Why tokens are no plan: the kind of the fault, the parser's reason, and before which token.
#[derive(Clone, Copy, Debug, PartialEq, Eq)]
pub struct PlanFault {
    pub kind: usize,
    pub reason: usize,
    pub at: usize,
}

// What comes of a plan's tokens. There is no answer where the arrays are too short for them, and not for every text.
pub type Outcome = Option<Result<HeldPlan, PlanFault>>;

// The kinds of faults: reading stops, for the parser's reason; no such version; a slot that nothing binds; more than 32 procedures.
pub const READING: usize = 0;

pub const VERSION: usize = 1;

pub const SLOTS: usize = 2;

pub const END: usize = 3;

// Where the next procedure begins, and how many terms are left for it.
#[derive(Clone, Copy)]
struct Rest {
    at: usize,
    left: usize,
}

// A procedure has been read: its slots, its place in the arrays, and what is behind it.
fn keep(
    tokens: &[u8],
    heading: Heading,
    procedure: usize,
    at: usize,
    words: &[usize],
    roots: &mut [usize; 32],
    parameters: &mut [usize; 32],
    parsed: Parsed,
) -> ControlFlow<Outcome, Rest>
    requires { (procedure < 32) × Ordered words.now × (parsed.root < 1024) × (parsed.parameters < 9) }
    ensures { Keeps tokens.now heading procedure at words.now roots.old parameters.old
        roots.new parameters.new parsed result }
{
    if !plan_bound_slots::closed_with(words, parsed.root, parsed.parameters) {
        return ControlFlow::Break(Some(Err(PlanFault {
            kind: SLOTS,
            reason: 0,
            at,
        })));
    }
    roots[procedure] = parsed.root;
    parameters[procedure] = parsed.parameters;
    if ahead(tokens, parsed.at) == tokens::END {
        return ControlFlow::Break(Some(Ok(HeldPlan {
            version: heading.version,
            mask: heading.mask,
            procedures: procedure + 1,
            left: parsed.left,
        })));
    }
    ControlFlow::Continue(Rest {
        at: parsed.at,
        left: parsed.left,
    })
}

// One procedure: what is left behind it, or what comes of the plan.
fn step(
    tokens: &[u8],
    counts: &[u8],
    heading: Heading,
    procedure: usize,
    rest: Rest,
    words: &mut [usize],
    roots: &mut [usize; 32],
    parameters: &mut [usize; 32],
    goals: &mut [u16],
    values: &mut [usize],
) -> ControlFlow<Outcome, Rest>
    requires tokens_len_bound { (length tokens.now ≤ 16384) × (counts.now ≡ counts_of tokens.now) × (procedure < 32) }
    requires sized { Sized goals.old values.old words.old }
    requires going { Going tokens.now heading.version heading.mask words.old roots.old parameters.old procedure rest.at rest.left }
    ensures { Goes tokens.now heading.version heading.mask words.new roots.new parameters.new procedure result }
{
    match plan_parser::procedure(
        tokens, rest.at, procedure, counts, words, rest.left, goals, values,
    ) {
        Some(Ok(parsed)) => keep(
            tokens, heading, procedure, rest.at, words, roots, parameters, parsed,
        ),
        Some(Err(halt)) => ControlFlow::Break(Some(Err(PlanFault {
            kind: READING,
            reason: halt.reason,
            at: halt.at,
        }))),
        None => ControlFlow::Break(None),
    }
}

// All procedures.
fn procedures(
    tokens: &[u8],
    counts: &[u8],
    heading: Heading,
    words: &mut [usize],
    roots: &mut [usize; 32],
    parameters: &mut [usize; 32],
    goals: &mut [u16],
    values: &mut [usize],
) -> Outcome
    requires tokens_len_bound { (length tokens.now ≤ 16384) × (counts.now ≡ counts_of tokens.now) × (heading.version ≤ 1) }
    requires sized { Sized goals.old values.old words.old }
    requires going { Going tokens.now heading.version heading.mask words.old roots.old parameters.old 0 heading.at (length words.old) }
    ensures { ReadAs tokens.now words.new roots.new parameters.new result }
{
    let mut rest = Rest {
        at: heading.at,
        left: words.len(),
    };
    for procedure in 0..32 {
        match step(
            tokens, counts, heading, procedure, rest, words, roots, parameters, goals, values,
        ) {
            ControlFlow::Continue(behind) => rest = behind,
            ControlFlow::Break(outcome) => return outcome,
        }
    }
    Some(Err(PlanFault {
        kind: END,
        reason: 0,
        at: rest.at,
    }))
}

// A plan's tokens, into arrays; every list of tokens gets the definition's answer. Room for the parameter counts, goals and values is lent.
pub fn read_plan(
    tokens: &[u8],
    counts: &mut [u8],
    words: &mut [usize],
    roots: &mut [usize; 32],
    parameters: &mut [usize; 32],
    goals: &mut [u16],
    values: &mut [usize],
) -> Outcome
    requires tokens_nonzero { (0 < length tokens.now) × (length tokens.now ≤ 16384) × (length tokens.now < length counts.old) × Ordered words.old }
    requires sized { Sized goals.old values.old words.old × (length roots.old ≡ 32) × (length parameters.old ≡ 32) }
    ensures { ReadAs tokens.now words.new roots.new parameters.new result }
{
    let heading = header(tokens);
    if heading.version > 1 {
        return Some(Err(PlanFault {
            kind: VERSION,
            reason: 0,
            at: heading.at,
        }));
    }
    let count = put_counts(tokens, counts);
    procedures(
        tokens,
        &counts[0..count],
        heading,
        words,
        roots,
        parameters,
        goals,
        values,
    )
}
