// What the check of the steps answers, and the lookups by id, by key and of `times`.
use crate::panels::print_panel;
use crate::print::front;
use crate::records::print_lookup;
use crate::stream::{each_text, next_text, number_at, put_numbers};
use check_steps::{StepsAnswer, check_steps};
use console::{Lent, Numbers};
use lookups::TimesAnswer;
use record::{RecordAnswer, part};
use refusal::Told;
use scenario::{ScenarioAnswer, read_scenario};
use std::io;
use std::io::{Read, Write};

fn print_times(out: &mut impl Write, bytes: &[u8], number: usize) -> io::Result<()> {
    match lookups::times(bytes, number) {
        TimesAnswer::Times(times) => write!(out, " {times}"),
        TimesAnswer::Refused(e) => {
            let Told { number, line, step } = e.told();
            write!(out, " !{number}/{line}/{step}")
        }
    }
}

// ---- scenarios that are read first

fn print_read(
    out: &mut impl Write,
    names: &[u8],
    bytes: &[u8],
    lines: &[u32],
    steps: usize,
) -> io::Result<()> {
    match check_steps(bytes, lines, names) {
        StepsAnswer::Good { .. } => write!(out, "ok times")?,
        StepsAnswer::Refused(e) => write!(out, "refused {} times", Numbers(e))?,
    }
    for number in 1..=steps {
        print_times(out, bytes, number)?;
    }
    Ok(())
}

fn print_scenario(
    out: &mut impl Write,
    text: &[u8],
    names: &[u8],
    lent: &mut Lent,
) -> io::Result<()> {
    match read_scenario(text, &mut lent.work, &mut lent.record, &mut lent.lines) {
        ScenarioAnswer::Read {
            record_bytes,
            steps,
            ..
        } => {
            let bytes = front(&lent.record, record_bytes);
            print_read(out, names, bytes, front(&lent.lines, steps), steps)?;
        }
        ScenarioAnswer::Refused(e) => write!(out, "refused {}", Numbers(e))?,
    }
    writeln!(out)
}

// The first text is a name list.
pub(crate) fn print_scenarios(
    out: &mut impl Write,
    input: &mut impl Read,
    buffer: &mut [u8],
    names: &mut [u8],
    lent: &mut Lent,
) -> io::Result<()> {
    let names = next_text(input, names)?.unwrap_or(&[]);
    each_text(input, buffer, |text| print_scenario(out, text, names, lent))
}

// ---- records from outside

fn print_steps(out: &mut impl Write, bytes: &[u8], lines: &[u32], names: &[u8]) -> io::Result<()> {
    match check_steps(bytes, lines, names) {
        StepsAnswer::Good { steps } => write!(out, "good {steps}"),
        StepsAnswer::Refused(e) => write!(out, "refused {}", Numbers(e)),
    }
}

// Of the numbers in front, the first is the record's length, the second how many lines are lent.
pub(crate) fn print_record_check(out: &mut impl Write, text: &[u8]) -> io::Result<()> {
    let mut lines = [0u32; 64];
    let Some(lines) = lines.get_mut(..number_at(text, 4) as usize) else {
        return Ok(());
    };
    put_numbers(text, 8, lines);
    let start = 8 + 4 * lines.len();
    let end = start + number_at(text, 0) as usize;
    let bytes = part(text, start, end);
    print_steps(out, bytes, lines, part(text, end, text.len()))?;
    print_panel(out, bytes)
}

fn print_values(out: &mut impl Write, bytes: &[u8], key: &[u8], end: usize) -> io::Result<()> {
    for number in 0..end {
        print_lookup(out, bytes, lookups::value_by_key(bytes, number, key))?;
        print_times(out, bytes, number)?;
    }
    Ok(())
}

// The number in front is the record's length; what stands behind the record is looked for.
pub(crate) fn print_lookups(out: &mut impl Write, text: &[u8]) -> io::Result<()> {
    let end = 4 + number_at(text, 0) as usize;
    let bytes = part(text, 4, end);
    let sought = part(text, end, text.len());
    write!(out, "id")?;
    print_lookup(out, bytes, lookups::step_by_id(bytes, sought))?;
    let steps = match record::check_record(bytes) {
        RecordAnswer::Good { steps } => steps,
        RecordAnswer::Refused(_) => 0,
    };
    print_values(out, bytes, sought, steps.saturating_add(2))?;
    print_panel(out, bytes)
}
