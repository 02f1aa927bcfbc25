// What is read of a scenario.
use crate::print::{Hex, Spaced, front, front_mut, mark_others};
use crate::section::{Room, Shown};
use console::{Lent, Numbers};
use scenario::{ScenarioAnswer, read_scenario};
use std::io;
use std::io::Write;

// What was lent, behind the reading.
#[derive(Clone, Copy)]
struct Left<'a> {
    work: &'a [u8],
    record: &'a [u8],
    lines: &'a [u32],
}

fn print_record(out: &mut impl Write, left: Left<'_>, size: usize, steps: usize) -> io::Result<()> {
    let bytes = Hex(front(left.record, size));
    let lines = Spaced(front(left.lines, steps));
    write!(out, "ok {bytes} lines{lines}")
}

fn print_answer(
    out: &mut impl Write,
    shown: Shown,
    answer: ScenarioAnswer,
    left: Left<'_>,
) -> io::Result<()> {
    match answer {
        ScenarioAnswer::Read {
            tree_bytes,
            record_bytes,
            line_bytes,
            steps,
        } => {
            match shown {
                Shown::Sizes => {
                    write!(out, "ok {tree_bytes} {record_bytes} {line_bytes} {steps}")?;
                }
                Shown::Record => print_record(out, left, record_bytes, steps)?,
                Shown::RecordAndTree => {
                    print_record(out, left, record_bytes, steps)?;
                    write!(out, " tree {}", Hex(front(left.work, tree_bytes)))?;
                }
            }
            mark_others(out, left.work, tree_bytes, 7)?;
            mark_others(out, left.record, record_bytes, 7)?;
            mark_others(out, left.lines, steps, 7)
        }
        ScenarioAnswer::Refused(e) => {
            write!(out, "refused {}", Numbers(e))?;
            mark_others(out, left.work, 0, 0)?;
            mark_others(out, left.record, 0, 0)?;
            mark_others(out, left.lines, 0, 0)
        }
    }
}

// As much is lent as there is room, or all.
pub(crate) fn print_scenario(
    out: &mut impl Write,
    text: &[u8],
    room: Room,
    shown: Shown,
    lent: &mut Lent,
) -> io::Result<()> {
    let work = front_mut(&mut lent.work, room.work);
    let record = front_mut(&mut lent.record, room.record);
    let lines = front_mut(&mut lent.lines, room.lines);
    work.fill(7);
    record.fill(7);
    lines.fill(7);
    let answer = read_scenario(text, work, record, lines);
    print_answer(
        out,
        shown,
        answer,
        Left {
            work,
            record,
            lines,
        },
    )
}
