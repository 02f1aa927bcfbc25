// Checks scenario texts as editors and linters do: for each file that an argument names it prints `FILE: ok, N steps`, or the file, the
// line if there is one, the refusal's number and words, and the step if there is one. A file that cannot be read, or whose name is not
// UTF-8, is named on standard error with the reason, and the rest are still checked. It lends as much as drumread, so it accepts the same
// texts.
#![tactic(auto)]

mod words;

use console::{Lent, PLACES, ROOM, TEXT, read_at_most};
use refusal::{Refusal, Told};
use scenario::{ScenarioAnswer, read_scenario};
use std::env::FillError;
use std::fs::File;
use std::io;
use std::rt::{Env, Files};
use words::Words;

fn print_refusal(rt: &impl Print, path: &str, e: Refusal) -> io::Result<()> {
    let Told { number, line, step } = e.told();
    print!(rt; "{path}")?;
    if line > 0 {
        print!(rt; ":{line}")?;
    }
    print!(rt; ": {number} {}", Words(e))?;
    if step > 0 {
        print!(rt; " (step {step})")?;
    }
    println!(rt)
}

fn print_ok(rt: &impl Print, path: &str, steps: usize) -> io::Result<()> {
    let noun = if steps == 1 { "step" } else { "steps" };
    println!(rt; "{path}: ok, {steps} {noun}")
}

fn check_text<R: AllocGlobal + Print>(
    rt: &R,
    path: &str,
    text: &[u8],
    lent: &mut Option<Lent>,
) -> io::Result<()> {
    let lent = lent.get_or_try_insert_with(|| Lent::new(rt.alloc(), ROOM, PLACES))?;
    match read_scenario(text, &mut lent.work, &mut lent.record, &mut lent.lines) {
        ScenarioAnswer::Read { steps, .. } => print_ok(rt, path, steps),
        ScenarioAnswer::Refused(e) => print_refusal(rt, path, e),
    }
}

fn read_file<R: Files + AllocGlobal>(rt: &R, path: &str) -> io::Result<Vec<u8>> {
    read_at_most(rt.alloc(), File::open(rt, path)?, TEXT)
}

fn check_file<R: Files + AllocGlobal + Print + Eprint>(
    rt: &R,
    path: &str,
    lent: &mut Option<Lent>,
) -> io::Result<()> {
    match read_file(rt, path) {
        Ok(text) => check_text(rt, path, &text, lent),
        Err(e) => eprintln!(rt; "{path}: {e}"),
    }
}

// std opens files by names that are text.
fn check_path<R: Files + AllocGlobal + Print + Eprint>(
    rt: &R,
    path: &[u8],
    lent: &mut Option<Lent>,
) -> io::Result<()> {
    match str::from_utf8(path) {
        Ok(name) => check_file(rt, name, lent),
        Err(_) => {
            let shown = String::from_utf8_lossy(rt.alloc(), path)?;
            eprintln!(rt; "{shown}: the name is not UTF-8")
        }
    }
}

fn main(rt: HostRuntime) -> io::Result<()> {
    let mut path = vec![in rt.alloc(); 0u8; 4096]?;
    // Lent from the first file on that can be read.
    let mut lent = None;
    // Argument by argument, and not by `env::args`, whose items are text: a name that is not is told.
    for i in 1..usize::MAX {
        match rt.arg(i, &mut path) {
            Ok(length) => check_path(&rt, &path[..length], &mut lent)?,
            Err(FillError::TooLong) => eprintln!(rt; "drumcheck: a name that is too long")?,
            Err(FillError::NotPresent) if i == 1 => return eprintln!(rt; "usage: drumcheck FILE.."),
            Err(FillError::NotPresent) => return Ok(()),
        }
    }
    Ok(())
}
