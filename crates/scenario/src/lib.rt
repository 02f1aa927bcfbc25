// The main job: the scenario of a text, its record and the lines of its steps. A tree is read where it stands in its bytes. The record is
// written from the front as far as it fits and counted beyond that, so that one walk serves.
#![tactic(auto)]

ghost use Rattle.std.specs.Prelude.{◌≡◌, ◌≤◌, ◌<◌, ◌^◌, length, set};
ghost use Rattle.item.specs.Tree as trees;
ghost use Rattle.item.specs.Tree.{Yaml, Ranged};
ghost use Rattle.item.specs.Encode.{encode};
ghost use Rattle.entries.specs.Entries.{Stands, HoldsIn};
ghost use Rattle.nodes.specs.Writing.{Goes};
ghost use Rattle.meaning.specs.Record.{steps_item, record_of};
ghost use Rattle.meaning.specs.Meanings.{steps_from, meaning_of};
ghost use Rattle.scenario.specs.Scenario.{scenario_of, output, tree_bytes, record_bytes, step_numbers, answer_of, sizes_of};
ghost use Rattle.scenario.specs.Contract.{WritesSteps, AgreesScenario};

use item::{Encoded, Item, Kind, LIMIT, Part};
use lines::{Lines, Rows};
use nodes::{Node, RecordWriter};
use refusal::Refusal;
use step::step_at;
use step_lines::{first_dash, next_dash};
use top::{put_top, read_top};
use tree::read_with;

/// What reading a scenario answers: the bytes of each output, and how many steps there are.
// An enum of its own, as each public job answers: what it tells has names, and the definitions name its cases.
#[derive(Clone, Copy, Debug, PartialEq, Eq)]
pub enum ScenarioAnswer {
    Read {
        tree_bytes: usize,
        record_bytes: usize,
        line_bytes: usize,
        steps: usize,
    },
    Refused(Refusal),
}

// What the answer tells of a reading, so that `read` hands refusals on by `?`. One `match` makes the answer of it where a refusal clears the
// outputs; a `From` beside that asks which of the two it is twice.
#[derive(Clone, Copy)]
struct Sizes {
    tree_bytes: usize,
    record_bytes: usize,
    line_bytes: usize,
    steps: usize,
}

// Stores a number if there is a place for it, by index, since what is written through `get_mut` is not known afterwards. `pair_logs` has such
// a function, and `drum` one for five numbers; one shared would be no plainer, being a crate of itself.
fn store(lines: &mut [u32], i: usize, n: u32)
    ensures { i < length lines.old → lines.new ≡ set lines.old i n }
{
    if i < lines.len() {
        lines[i] = n;
    }
}

// The steps of the items that stand in a part, and their lines; it tells how many they are.
fn put_steps(
    part: Part<'_>,
    text: &Lines<'_, '_>,
    writer: &mut RecordWriter<'_>,
    lines: &mut [u32],
) -> Result<usize, Refusal>
    ensures goes { Goes writer.old writer.new }
    ensures steps { (ys : trees.Items) → HoldsIn part.entry ys
        → WritesSteps (λ lines. steps_from 1 lines ys) steps_item (λ ss. ss) text.now writer.old writer.new lines.old lines.new result }
{
    let first = first_dash(text);
    let header = writer.open();
    let mut next = first.at;
    // Counted by hand, since how many steps there are is the answer too.
    let mut steps = 0;
    for item in part.walk::<Item>() {
        let number = (steps + 1) as u32;
        let Ok(item) = item else {
            return Err(Refusal::StepNotMapping { step: number });
        };
        let dash = next_dash(text, next, first.indent);
        // Written out, since this turn of the walk tells that it is one; a walk over nodes would be an iterator of its own.
        let node = Node {
            bytes: part.bytes,
            item,
        };
        step_at(Some(node), dash.line, number, writer)?;
        store(lines, steps, dash.line);
        steps += 1;
        next = dash.next;
    }
    writer.close(header, Kind::Steps);
    Ok(steps)
}

// The record of the tree that stands at the front: its parts are read, then its fields written, at last its header.
fn put_record(
    s: Encoded<'_>,
    text: &Lines<'_, '_>,
    writer: &mut RecordWriter<'_>,
    lines: &mut [u32],
) -> Result<usize, Refusal>
    ensures goes { Goes writer.old writer.new }
    ensures whole { (y : Yaml) → Ranged y → Stands s.entry.bytes.now 0 (encode y)
        → WritesSteps (λ lines. meaning_of lines y) record_of (λ m. m.steps) text.now writer.old writer.new lines.old lines.new result }
{
    let top = read_top(s)?;
    let header = writer.open();
    put_top(top, writer);
    let steps = put_steps(top.steps, text, writer, lines)?;
    writer.close(header, Kind::Scenario);
    Ok(steps)
}

// What a job lends is lent on as it is, one by one, since the clauses name each. That each is short is required here alone, where slices are
// made so, and no type says it.
fn read(
    text: &[u8],
    work: &mut [u8],
    record: &mut [u8],
    lines: &mut [u32],
) -> Result<Sizes, Refusal>
    requires { (length work.old ≤ 2 ^ 20) × (length «record».old ≤ 2 ^ 20) × (length lines.old ≤ 2 ^ 18) }
    ensures { AgreesScenario (scenario_of work.old «record».old lines.old text.now)
        work.old work.new «record».old «record».new lines.old lines.new
        result }
{
    let mut rows = Rows::new();
    let tree_bytes = read_with(text, &mut rows, work)?;
    let text = Lines::new(text, &rows);
    let mut writer = RecordWriter::new(record);
    let steps = put_record(Encoded { bytes: work }, &text, &mut writer, lines)?;
    let end = writer.end;
    if steps > lines.len() {
        return Err(Refusal::TooFewLinePlaces);
    }
    if end > record.len() {
        return Err(Refusal::RecordTooLong);
    }
    Ok(Sizes {
        tree_bytes,
        record_bytes: end,
        line_bytes: 4 * steps,
        steps,
    })
}

/// The scenario of a text: its tree is left in `work`, its record written from the front of `record`, the lines of its steps from the
/// front of `lines`. A refusal leaves zeros in all three.
pub fn read_scenario(
    text: &[u8],
    work: &mut [u8],
    record: &mut [u8],
    lines: &mut [u32],
) -> ScenarioAnswer
    ensures answer { answer_of result ≡ sizes_of (scenario_of work.old «record».old lines.old
        text.now) }
    ensures tree { work.new ≡ output tree_bytes
        (scenario_of work.old «record».old lines.old text.now) work.old }
    ensures bytes { «record».new ≡ output record_bytes
        (scenario_of work.old «record».old lines.old text.now) «record».old }
    ensures numbers { lines.new ≡ output step_numbers
        (scenario_of work.old «record».old lines.old text.now) lines.old }
{
    let work_len = work.len().min(LIMIT);
    let record_len = record.len().min(LIMIT);
    let places = lines.len().min(LIMIT / 4);
    match read(
        text,
        &mut work[..work_len],
        &mut record[..record_len],
        &mut lines[..places],
    ) {
        Ok(
            Sizes {
                tree_bytes,
                record_bytes,
                line_bytes,
                steps,
            },
        ) => ScenarioAnswer::Read {
            tree_bytes,
            record_bytes,
            line_bytes,
            steps,
        },
        Err(e) => {
            work.fill(0);
            record.fill(0);
            lines.fill(0);
            ScenarioAnswer::Refused(e)
        }
    }
}
