// What a panel shows of a record.
use crate::print::{print_part, print_refused};
use panel::{PanelName, PanelStep, panel_name, panel_step};
use std::io;
use std::io::Write;

// Where the name's part begins, how long it is, and how many steps there are.
fn print_name(out: &mut impl Write, bytes: &[u8]) -> io::Result<usize> {
    match panel_name(bytes) {
        PanelName::Named { start, end, steps } => {
            print_part(out, bytes, start, end)?;
            write!(out, " {steps}")?;
            Ok(steps)
        }
        PanelName::Refused(e) => {
            print_refused(out, e)?;
            Ok(0)
        }
    }
}

// The parts of the name and of the id.
fn print_step(out: &mut impl Write, bytes: &[u8], number: usize) -> io::Result<()> {
    match panel_step(bytes, number) {
        PanelStep::Found {
            name_start,
            name_end,
            id_start,
            id_end,
        } => {
            print_part(out, bytes, name_start, name_end)?;
            print_part(out, bytes, id_start, id_end)
        }
        PanelStep::Refused(e) => print_refused(out, e),
    }
}

// The name, each step, and those that there are not.
pub(crate) fn print_panel(out: &mut impl Write, bytes: &[u8]) -> io::Result<()> {
    write!(out, " panel")?;
    let steps = print_name(out, bytes)?;
    for number in 0..steps.saturating_add(2) {
        print_step(out, bytes, number)?;
    }
    print_step(out, bytes, usize::MAX)
}
