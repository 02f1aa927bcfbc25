// Replays the stored cases of the stream and prints what the reader answers: a line for each text. What must be printed, in the file
// stdout, comes from Rust; the limits that the Rust lacks, from document 01.
#![tactic(auto)]

mod items;
mod line_entries;
mod logs;
mod panels;
mod print;
mod records;
mod scenarios;
mod section;
mod shares;
mod steps;
mod stream;
mod trees;
mod values;

use crate::section::{Question, Section, next_section};
use crate::stream::{MANY, each_text};
use console::Lent;
use item::LIMIT;
use std::alloc::{AllocError, Global};
use std::io;
use std::io::{BufReader, LineWriter, Read, Write};

// What is lent again for each text. Only the text has its room from the beginning.
#[derive(Drop)]
struct Buffers {
    text: Vec<u8>,
    names: Vec<u8>,
    lent: Lent,
}

impl Buffers {
    fn new(alloc: Global) -> io::Result<Buffers> {
        Ok(Buffers {
            text: vec![in alloc; 0u8; 1048640]?,
            names: Vec::new(alloc),
            lent: Lent::new(alloc, 0, 0)?,
        })
    }
}

// As much as a scenario can need.
fn make_room(lent: &mut Lent) -> Result<(), AllocError> {
    lent.work.resize_with(LIMIT, || 0)?;
    lent.record.resize_with(LIMIT, || 0)?;
    lent.lines.resize_with(262144, || 0)
}

fn answer(
    out: &mut impl Write,
    question: Question,
    text: &[u8],
    lent: &mut Lent,
) -> io::Result<()> {
    match question {
        Question::Header { at } => items::print_header(out, text, at)?,
        Question::Same { size } => items::print_same(out, text, size)?,
        Question::Lines => line_entries::print_lines(out, text)?,
        Question::Value => values::print_line(out, text)?,
        Question::Tree => {
            lent.work.resize_with(LIMIT, || 0)?;
            trees::print_tree(out, text, &mut lent.work)?;
        }
        Question::LeastWork => trees::print_least(out, text)?,
        Question::Scenario { room, shown } => {
            make_room(lent)?;
            scenarios::print_scenario(out, text, room, shown, lent)?;
        }
        Question::Record => records::print_record(out, text)?,
        Question::RecordCheck => steps::print_record_check(out, text)?,
        Question::Lookups => steps::print_lookups(out, text)?,
        Question::Shares => shares::print_shares(out, text)?,
        Question::Logs => logs::print_logs(out, text)?,
        Question::Panel => records::print_checked(out, text)?,
        Question::Nothing => {}
    }
    writeln!(out)
}

fn replay_section(
    out: &mut impl Write,
    input: &mut impl Read,
    section: Section,
    buffers: &mut Buffers,
) -> io::Result<()> {
    let Buffers { text, names, lent } = buffers;
    match section {
        Section::Items => items::print_items(out),
        Section::LongRecord { from, end } => records::print_long(out, input, text, from, end),
        Section::Parts => records::print_parts(out),
        Section::ScenarioChecks => {
            names.resize_with(65536, || 0)?;
            make_room(lent)?;
            steps::print_scenarios(out, input, text, names, lent)
        }
        Section::Texts(question) => {
            each_text(input, text, |text| answer(out, question, text, lent))
        }
    }
}

fn main(rt: HostRuntime) -> io::Result<()> {
    let mut buffers = Buffers::new(rt.alloc())?;
    let mut input = BufReader::new(rt.alloc(), rt.reader())?;
    // Line by line, so that whoever sends texts one by one has each answer before the next.
    let mut out = LineWriter::new(rt.alloc(), io::writer(&rt))?;
    // No `while let`, here and for texts: a stream does not tell how long it is, and a loop must be seen to end.
    for _ in 0..MANY {
        let Some(section) = next_section(&mut input)? else {
            break;
        };
        replay_section(&mut out, &mut input, section, &mut buffers)?;
    }
    out.flush()
}
