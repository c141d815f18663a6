// The test program: document 01's shot list and the stored cases of a second interpreter, held to the static library's functions, and the numbers of
// include/ruqzhemil.h, with which their answers are written. A line for each group of cases and one for all of them; then the same for cases
// that must differ.
#![tactic(auto)]

mod groups; // groups.rt: the cases of a file

use groups::Tally;
use std::io;
use std::rt::Files;
use test_stored_cases::{
    both_case, bound_case, charge_case, check_case, file_case, interleaving_case, log_case,
    plan_case, play_case, preview_case, read_case, run_case, text_case, version_case, witness_case,
};

fn print(rt: &impl Print, name: &str, tally: Tally) -> io::Result<()> {
    let Tally { cases, differ } = tally;
    println!(rt; "{name}{cases} cases, {differ} differ")
}

// One group: its line, and its cases added to those before.
fn group<R: Files + Print, F: Fn(&[u8]) -> bool>(
    rt: &R,
    name: &str,
    path: &str,
    right: F,
    before: Tally,
) -> io::Result<Tally>
    requires { F.IsAlwaysCallable right }
{
    let found = groups::tally_of(rt, path, right)?;
    print(rt, name, found)?;
    Ok(groups::both(before, found))
}

fn version<R: Files + Print>(rt: &R) -> io::Result<Tally> {
    let all = groups::tally_of(rt, "version", version_case)?;
    print(rt, "version: ", all)?;
    Ok(all)
}

fn shot_list<R: Files + Print>(rt: &R, all: Tally) -> io::Result<Tally> {
    let all = group(rt, "shot list, checked: ", "shots", check_case, all)?;
    let all = group(rt, "shot list, played: ", "shots", play_case, all)?;
    group(rt, "shot list, judged: ", "shots", run_case, all)
}

fn edges<R: Files + Print>(rt: &R, all: Tally) -> io::Result<Tally> {
    let all = group(rt, "edges, checked: ", "edges", check_case, all)?;
    let all = group(rt, "edges, played: ", "edges", play_case, all)?;
    let all = group(rt, "edges, judged: ", "edges", run_case, all)?;
    group(
        rt,
        "logs at the edges, judged: ",
        "edge_logs",
        log_case,
        all,
    )
}

fn runs<R: Files + Print>(rt: &R, all: Tally) -> io::Result<Tally> {
    let all = group(rt, "runs, checked: ", "runs", check_case, all)?;
    let all = group(rt, "runs, played: ", "runs", play_case, all)?;
    let all = group(rt, "runs, judged: ", "runs", run_case, all)?;
    group(rt, "runs, played and judged: ", "runs", both_case, all)
}

fn others<R: Files + Print>(rt: &R, all: Tally) -> io::Result<Tally> {
    let all = group(rt, "refused plays, checked: ", "refused", check_case, all)?;
    let all = group(rt, "refused plays, played: ", "refused", play_case, all)?;
    let all = group(
        rt,
        "refused plays, played and judged: ",
        "refused",
        both_case,
        all,
    )?;
    group(rt, "other logs, judged: ", "logs", log_case, all)
}

fn files<R: Files + Print>(rt: &R, all: Tally) -> io::Result<Tally> {
    let all = group(
        rt,
        "data files at the edges: ",
        "edge_files",
        file_case,
        all,
    )?;
    group(rt, "data files: ", "files", file_case, all)
}

fn tools<R: Files + Print>(rt: &R, all: Tally) -> io::Result<Tally> {
    let all = group(rt, "charges: ", "charges", charge_case, all)?;
    let all = group(rt, "previews: ", "previews", preview_case, all)?;
    let all = group(rt, "plans, written: ", "plans", plan_case, all)?;
    let all = group(rt, "plans, shown: ", "texts", text_case, all)?;
    let all = group(rt, "texts, read: ", "reads", read_case, all)?;
    let all = group(rt, "bounds: ", "bounds", bound_case, all)?;
    let all = group(rt, "witnesses: ", "witnesses", witness_case, all)?;
    group(
        rt,
        "interleavings: ",
        "interleavings",
        interleaving_case,
        all,
    )
}

// Cases with one part of their answer changed, so that each must differ: of plays and logs.
fn changed_plays<R: Files + Print>(rt: &R) -> io::Result<Tally> {
    let all = groups::tally_of(rt, "changed_version", version_case)?;
    print(rt, "changed version: ", all)?;
    let all = group(rt, "changed, checked: ", "changed_checks", check_case, all)?;
    let all = group(rt, "changed, played: ", "changed_plays", play_case, all)?;
    let all = group(rt, "changed runs, judged: ", "changed_runs", run_case, all)?;
    let all = group(
        rt,
        "changed, played and judged: ",
        "changed_both",
        both_case,
        all,
    )?;
    group(rt, "changed logs, judged: ", "changed_logs", log_case, all)
}

// Of data files, charges and previews.
fn changed_answers<R: Files + Print>(rt: &R, all: Tally) -> io::Result<Tally> {
    let all = group(rt, "changed data files: ", "changed_files", file_case, all)?;
    let all = group(rt, "changed charges: ", "changed_charges", charge_case, all)?;
    group(
        rt,
        "changed previews: ",
        "changed_previews",
        preview_case,
        all,
    )
}

// Of tools over a plan.
fn changed_tools<R: Files + Print>(rt: &R, all: Tally) -> io::Result<Tally> {
    let all = group(
        rt,
        "changed plans, written: ",
        "changed_plans",
        plan_case,
        all,
    )?;
    let all = group(
        rt,
        "changed plans, shown: ",
        "changed_texts",
        text_case,
        all,
    )?;
    let all = group(rt, "changed texts, read: ", "changed_reads", read_case, all)?;
    let all = group(rt, "changed bounds: ", "changed_bounds", bound_case, all)?;
    let all = group(
        rt,
        "changed witnesses: ",
        "changed_witnesses",
        witness_case,
        all,
    )?;
    group(
        rt,
        "changed interleavings: ",
        "changed_interleavings",
        interleaving_case,
        all,
    )
}

fn main(rt: HostRuntime) -> io::Result<()> {
    let all = version(&rt)?;
    let all = shot_list(&rt, all)?;
    let all = edges(&rt, all)?;
    let all = runs(&rt, all)?;
    let all = others(&rt, all)?;
    let all = files(&rt, all)?;
    let all = tools(&rt, all)?;
    print(&rt, "", all)?;
    let all = changed_plays(&rt)?;
    let all = changed_answers(&rt, all)?;
    let all = changed_tools(&rt, all)?;
    print(&rt, "must differ: ", all)
}
