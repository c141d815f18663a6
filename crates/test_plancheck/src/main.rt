// A test of the program plancheck: what it prints to commands with each of its words but `play`, and to a word that it does not have.
#![tactic(auto)]

use std::io;

fn of_plan(rt: &HostRuntime, word: &[u8], plan: &[u8]) -> io::Result<()> {
    plancheck_files::obey(rt, 3, word, plan, b"", b"")
}

fn of_two(rt: &HostRuntime, word: &[u8], first: &[u8], second: &[u8]) -> io::Result<()> {
    plancheck_files::obey(rt, 4, word, first, second, b"")
}

// Words about a plan.
fn plans(rt: &HostRuntime) -> io::Result<()> {
    of_plan(rt, b"chek", b"p.plan")?;
    of_plan(rt, b"check", b"p.plan")?;
    of_plan(rt, b"check", b"short.plan")?;
    of_plan(rt, b"show", b"p.plan")?;
    of_plan(rt, b"bound", b"p.plan")?;
    of_two(rt, b"interleavings", b"p.plan", b"64")
}

// Words about a plan and a schedule.
fn runs(rt: &HostRuntime) -> io::Result<()> {
    of_two(rt, b"states", b"p.plan", b"0000010")?;
    plancheck_files::obey(rt, 5, b"preview", b"p.plan", b"00000", b"1")?;
    of_two(rt, b"witness", b"p.plan", b"0000010")?;
    of_two(rt, b"charge", b"p.plan", b"0000010")
}

// Words about a log.
fn logs(rt: &HostRuntime) -> io::Result<()> {
    of_two(rt, b"judge", b"race.log", b"1")?;
    of_two(rt, b"judge", b"race.log", b"2")?;
    of_two(rt, b"diagram", b"race.log", b"1")?;
    plancheck_files::obey(rt, 5, b"comtrade", b"p.plan", b"p.dat", b"p.cfg")
}

// Words whose answer is bytes.
fn packed(rt: &HostRuntime) -> io::Result<()> {
    of_two(rt, b"log", b"p.plan", b"0000010")?;
    of_plan(rt, b"read", b"p.plan")?;
    of_plan(rt, b"canonical", b"p.plan")
}

fn main(rt: HostRuntime) -> io::Result<()> {
    plans(&rt)?;
    runs(&rt)?;
    logs(&rt)?;
    packed(&rt)
}
