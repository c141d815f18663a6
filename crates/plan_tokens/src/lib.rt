// The tokens of a plan: its version, its volatile fields, main, and the other procedures.
#![tactic(auto)]

ghost use Rattle.std.specs.Prelude.{◌+◌, ◌-◌, ◌≤◌, ◌<◌, ◌≡◌, [], length, MatchOption};
ghost use Rattle.plan_packed.specs.Format.{version, fields_from, procedures};
ghost use Rattle.plan_packed.specs.Trees.{program_of};
ghost use Rattle.plan_notation.specs.Shown.{volatile_tokens, shown_plan};
ghost use Rattle.text.specs.Inner.Wrote.{Wrote};
ghost use Rattle.plan_tokens.specs.Inner.Begun.{Given, procedure_head, procedure_alone, header_tokens, procedures_behind, FirstField};

use plan_header::layout;
use plan_notation::tokens;
use plan_token_writer::rows::Rows;
use plan_token_writer::{put_fields, rows, write_expression};

// The first field from field 1 on that the mask has.
fn first_field(mask: usize) -> Option<usize>
    ensures { MatchOption result (fields_from mask 1 31 ≡ []) (FirstField mask) }
{
    for field in 1..32 {
        if plan_token_writer::bit(mask, field) == 1 {
            return Some(field);
        }
    }
    None
}

// `volatile` with the fields behind field 0, if there are any.
fn put_volatiles(area: &mut [u8], at: usize, mask: usize) -> usize
    requires { at + length (volatile_tokens (fields_from mask 1 31)) ≤ length area.old }
    ensures { Wrote area.old at (volatile_tokens (fields_from mask 1 31)) area.new result }
{
    match first_field(mask) {
        Some(first) => {
            let next = text::put_byte(area, at, tokens::VOLATILE as u8);
            put_fields(area, next, mask, first)
        }
        None => at,
    }
}

// `procedure 1 (2) =`.
fn put_head(area: &mut [u8], at: usize, procedure: usize, parameters: usize) -> usize
    requires at_in_bounds { at + 6 ≤ length area.old }
    requires procedure_bound { (procedure < 256) × (parameters < 256) }
    ensures { Wrote area.old at (procedure_head procedure parameters) area.new result }
{
    let head = [
        tokens::PROCEDURE as u8,
        procedure as u8,
        tokens::OPENING as u8,
        parameters as u8,
        tokens::CLOSING as u8,
        tokens::EQUALS as u8,
    ];
    text::put_word(area, at, &head)
}

// A procedure behind main.
fn put_procedure(
    plan: &[u8],
    words: &[usize; 1024],
    rows: &Rows,
    stack: &mut [u16],
    area: &mut [u8],
    at: usize,
    procedure: usize,
) -> usize
    requires given { Given plan.now words.now × (length area.old + 8 ≤ length stack.old) }
    requires procedure_bound { (procedure < procedures plan.now) × (at + length (procedure_alone plan.now procedure) ≤ length area.old) }
    ensures { Wrote area.old at (procedure_alone plan.now procedure) area.new result }
{
    let parameters = layout::parameters(plan, procedure);
    let next = put_head(area, at, procedure, parameters);
    let root = layout::root(plan, procedure);
    write_expression(words, rows, stack, root, area, next)
}

// The version and the volatile fields.
fn put_header(plan: &[u8], area: &mut [u8]) -> usize
    requires { (8 ≤ length plan.now) × (version plan.now ≤ 1) × (length (header_tokens plan.now) ≤ length area.old) }
    ensures { Wrote area.old 0 (header_tokens plan.now) area.new result }
{
    let version = layout::version(plan);
    let mask = layout::volatiles(plan);
    let first = [tokens::VERSION as u8, version as u8];
    let next = text::put_word(area, 0, &first);
    put_volatiles(area, next, mask)
}

// All procedures behind main.
fn put_procedures(
    plan: &[u8],
    words: &[usize; 1024],
    rows: &Rows,
    stack: &mut [u16],
    area: &mut [u8],
    from: usize,
    count: usize,
) -> usize
    requires given { Given plan.now words.now × (length area.old + 8 ≤ length stack.old) }
    requires count_value { count ≡ procedures plan.now }
    requires plan_in_bounds { from + length (procedures_behind plan.now) ≤ length area.old }
    ensures { Wrote area.old from (procedures_behind plan.now) area.new result }
{
    let mut at = from;
    for procedure in 1..count {
        at = put_procedure(plan, words, rows, stack, area, at, procedure);
    }
    at
}

// An accepted plan, whose terms are in `words`, by a stack that is lent; how many tokens it has.
pub fn put_plan(plan: &[u8], words: &[usize; 1024], stack: &mut [u16], area: &mut [u8]) -> usize
    requires given { Given plan.now words.now × (length (shown_plan (program_of plan.now)) ≤ length area.old) }
    requires area_in_bounds { length area.old + 8 ≤ length stack.old }
    ensures { Wrote area.old 0 (shown_plan (program_of plan.now)) area.new result }
{
    let count = layout::procedures(plan);
    let root = layout::root(plan, 0);
    let rows = rows::all();
    let main = put_header(plan, area);
    let behind = write_expression(words, &rows, stack, root, area, main);
    put_procedures(plan, words, &rows, stack, area, behind, count)
}
