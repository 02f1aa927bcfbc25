// What a caller can count on: demands 1 to 3 of document 01, and that a panel shows what the check accepts. Each function calls the public
// jobs as a board does, on whatever it is lent, and its contract is such a promise: it is proved from the contracts of the jobs alone. What
// is lent is passed as the jobs take it, one output by one, since their clauses name each.
#![tactic(auto)]

ghost use Rattle.std.specs.Prelude.{◌≡◌, true};
ghost use Rattle.meaning.specs.Record.{fields};
ghost use Rattle.record.specs.Jobs as jobs;
ghost use Rattle.record.specs.Jobs.{lookup_of};
ghost use Rattle.record.specs.Theorems.{shown};
ghost use Rattle.refusal.specs.Told.{told_of};
ghost use Rattle.scenario.specs.Scenario.{scenario_of};
ghost use Rattle.scenario.specs.Told.{ScenarioEnds};
ghost use Rattle.demands.specs.Records.{RecordEnds};
ghost use Rattle.demands.specs.Contract.{RecordRead, LooksUp, Parts};
ghost use Rattle.demands.specs.Demands.{TreeEnds, TellsRefusal, Compares, lacks, is_good, out_of_range};
ghost use Rattle.demands.specs.Demands.{ItemShown, step_items, TextItem};
ghost use Rattle.demands.specs.Panels.{NamedAlike, LabelledAlike};

use item::{HEADER, same_bytes};
use panel::{PanelName, PanelStep, panel_name, panel_step};
use record::{FIELDS, Lookup, RecordAnswer, check_record, field, part, step};
use refusal::{Refusal, Told};
use scenario::{ScenarioAnswer, read_scenario};
use tree::{TreeAnswer, read_tree};

/// What comparing the records of two texts answers; neither where one of them was refused.
#[derive(Clone, Copy, Debug, PartialEq, Eq)]
pub enum Compared {
    Same,
    Different,
    Neither,
}

/// Every reading of a tree ends in one of two ways.
// This, `scenario_ends` and `record_ends` are statements about three jobs, each in the words of its own answer, so none stands for another.
#[tactic(auto, using(crate::proofs::Calls::tree_told))]
pub fn tree_ends(text: &[u8], work: &mut [u8]) -> TreeAnswer
    ensures { TreeEnds text.now work.old work.new result }
{
    read_tree(text, work)
}

/// Every reading of a scenario ends in one of two ways.
#[tactic(auto, using(crate::proofs::Calls::scenario_told))]
pub fn scenario_ends(
    text: &[u8],
    work: &mut [u8],
    record: &mut [u8],
    lines: &mut [u32],
) -> ScenarioAnswer
    ensures { ScenarioEnds text.now work.old work.new «record».old
        «record».new lines.old lines.new result }
{
    read_scenario(text, work, record, lines)
}

/// Every check of a record ends in one of two ways.
#[tactic(auto, using(crate::proofs::Records::record_told))]
pub fn record_ends(record: &[u8]) -> RecordAnswer
    ensures { RecordEnds «record».now result }
{
    check_record(record)
}

/// What a refusal tells; nothing of a text that is read.
pub fn told(text: &[u8], work: &mut [u8], record: &mut [u8], lines: &mut [u32]) -> Told
    ensures { TellsRefusal (scenario_of work.old «record».old lines.old text.now)
        work.old work.new «record».old «record».new lines.old lines.new
        result }
{
    match read_scenario(text, work, record, lines) {
        ScenarioAnswer::Refused(e) => e.told(),
        ScenarioAnswer::Read { .. } => Told::default(),
    }
}

// Whether a record is good and has so many steps.
#[tactic(auto, unfolding(crate::specs::Demands::is_good, crate::specs::Demands::good_with))]
fn is_good(record: &[u8], steps: usize) -> bool
    ensures { result ≡ is_good «record».now steps }
{
    check_record(record) == RecordAnswer::Good { steps }
}

/// Whether the record of a text that is read is good, with as many steps as were told.
pub fn reads_good_records(
    text: &[u8],
    work: &mut [u8],
    record: &mut [u8],
    lines: &mut [u32],
) -> bool
    ensures { result ≡ true }
{
    match read_scenario(text, work, record, lines) {
        ScenarioAnswer::Refused(_) => true,
        ScenarioAnswer::Read {
            record_bytes,
            steps,
            ..
        } => is_good(&record[..record_bytes], steps),
    }
}

// The record of a text, or the refusal.
fn record_of<'a>(
    text: &[u8],
    work: &mut [u8],
    record: &'a mut [u8],
    lines: &mut [u32],
) -> Result<&'a [u8], Refusal>
    ensures { RecordRead text.now work.old «record».old lines.old result }
{
    match read_scenario(text, work, record, lines) {
        ScenarioAnswer::Refused(e) => Err(e),
        ScenarioAnswer::Read { record_bytes, .. } => Ok(&record[..record_bytes]),
    }
}

/// Reads two texts into buffers of their own and compares their records.
pub fn compare_texts(
    text: &[u8],
    work: &mut [u8],
    record: &mut [u8],
    lines: &mut [u32],
    other: &[u8],
    other_work: &mut [u8],
    other_record: &mut [u8],
    other_lines: &mut [u32],
) -> Compared
    ensures { Compares (scenario_of work.old «record».old lines.old text.now)
        (scenario_of other_work.old other_record.old other_lines.old other.now)
        text.now other.now result }
{
    let Ok(one) = record_of(text, work, record, lines) else {
        return Compared::Neither;
    };
    let Ok(another) = record_of(other, other_work, other_record, other_lines) else {
        return Compared::Neither;
    };
    if same_bytes(one, another) {
        Compared::Same
    } else {
        Compared::Different
    }
}

// Whether a refusal says that too little was lent.
#[tactic(auto, unfolding(crate::specs::Demands::lacks))]
fn is_lack(e: Refusal) -> bool
    ensures { result ≡ lacks (told_of e).number }
{
    matches!(
        e,
        Refusal::WorkTooShort | Refusal::TooFewLinePlaces | Refusal::RecordTooLong
    )
}

/// Whether one text that is read with one lending is read alike with any other, or too little is lent.
#[tactic(auto, using(crate::proofs::Calls::one_text))]
pub fn reads_alike(
    text: &[u8],
    work: &mut [u8],
    record: &mut [u8],
    lines: &mut [u32],
    other_work: &mut [u8],
    other_record: &mut [u8],
    other_lines: &mut [u32],
) -> bool
    ensures { result ≡ true }
{
    let Ok(one) = record_of(text, work, record, lines) else {
        return true;
    };
    match record_of(text, other_work, other_record, other_lines) {
        Ok(another) => same_bytes(one, another),
        Err(e) => is_lack(e),
    }
}

// The item that a lookup finds in any bytes, as `field` by a place or `step` by a number; nothing where there is none.
#[tactic(auto, unfolding(record::specs::Theorems::shown))]
fn item_of<L: Fn(&[u8], usize) -> Lookup>(record: &[u8], find: L, number: usize) -> &[u8]
    requires { L.IsAlwaysCallable find }
    ensures { (lookup : _) → LooksUp (L.post find) lookup
        → result.now ≡ shown «record».now (lookup «record».now number) }
{
    match find(record, number) {
        Lookup::Found { start, end } => part(record, start, end),
        Lookup::Nothing | Lookup::Refused(_) => &[],
    }
}

/// The item that a place finds.
// This and `step_item` stand side by side, as `text_field` and `text_step` do.
pub fn field_item(record: &[u8], place: usize) -> &[u8]
    ensures { ItemShown jobs.field fields «record».now place result.now }
{
    item_of(record, field, place)
}

/// The item that a step's number finds.
pub fn step_item(record: &[u8], number: usize) -> &[u8]
    ensures { ItemShown jobs.step step_items «record».now number result.now }
{
    item_of(record, step, number)
}

/// The item that a place finds in the record of a text.
// This and `text_step` stand side by side: each is a statement of its own, about a field and about a step, and what they share is
// `record_of` and `item_of`.
#[tactic(auto, using(crate::proofs::Calls::text_item))]
pub fn text_field<'a>(
    text: &[u8],
    work: &mut [u8],
    record: &'a mut [u8],
    lines: &mut [u32],
    place: usize,
) -> &'a [u8]
    ensures { TextItem fields (scenario_of work.old «record».old lines.old text.now)
        text.now place result.now }
{
    match record_of(text, work, record, lines) {
        Ok(whole) => field_item(whole, place),
        Err(_) => &[],
    }
}

/// The item that a step's number finds in the record of a text.
#[tactic(auto, using(crate::proofs::Calls::text_item))]
pub fn text_step<'a>(
    text: &[u8],
    work: &mut [u8],
    record: &'a mut [u8],
    lines: &mut [u32],
    number: usize,
) -> &'a [u8]
    ensures { TextItem step_items (scenario_of work.old «record».old lines.old text.now)
        text.now number result.now }
{
    match record_of(text, work, record, lines) {
        Ok(whole) => step_item(whole, number),
        Err(_) => &[],
    }
}

// Whether a lookup is refused with 53.
#[tactic(auto, unfolding(crate::specs::Demands::out_of_range))]
fn is_out_of_range(found: Lookup) -> bool
    ensures { result ≡ out_of_range (lookup_of found) }
{
    matches!(found, Lookup::Refused(Refusal::OutOfRange))
}

// Whether a lookup refuses this number so, unless it is one from 1 to the count.
fn refuses_others<L: Fn(&[u8], usize) -> Lookup>(
    record: &[u8],
    find: L,
    count: usize,
    number: usize,
) -> bool
    requires callable { L.IsAlwaysCallable find }
    requires parts { (from : _) × Parts (L.post find) «record».now count from }
    ensures { result ≡ true }
{
    (1..=count).contains(&number) || is_out_of_range(find(record, number))
}

/// Whether a good record has every place but 1 to 8 refused with 53.
// A statement of its own beside `refuses_other_numbers`; what both share is `refuses_others`.
pub fn refuses_other_places(record: &[u8], place: usize) -> bool
    ensures { result ≡ true }
{
    match check_record(record) {
        RecordAnswer::Good { .. } => refuses_others(record, field, FIELDS, place),
        RecordAnswer::Refused(_) => true,
    }
}

/// Whether a good record has every step number refused with 53 but 1 to how many there are.
pub fn refuses_other_numbers(record: &[u8], number: usize) -> bool
    ensures { result ≡ true }
{
    match check_record(record) {
        RecordAnswer::Good { steps } => refuses_others(record, step, steps, number),
        RecordAnswer::Refused(_) => true,
    }
}

// Whether what is found by the numbers from 1 to the count stands one behind another, from where the first begins to the end.
fn fill<L: Fn(&[u8], usize) -> Lookup>(record: &[u8], find: L, count: usize, first: usize) -> bool
    requires callable { L.IsAlwaysCallable find }
    requires parts { Parts (L.post find) «record».now count first }
    ensures { result ≡ true }
{
    let mut at = first;
    for number in 1..=count {
        let Lookup::Found { start, end } = find(record, number) else {
            return false;
        };
        if start != at {
            return false;
        }
        at = end;
    }
    at == record.len()
}

/// Whether a good record is nothing but its fields, and the last of them nothing but its steps.
pub fn lookups_fill(record: &[u8]) -> bool
    ensures { result ≡ true }
{
    let RecordAnswer::Good { steps } = check_record(record) else {
        return true;
    };
    let Lookup::Found { start, .. } = field(record, FIELDS) else {
        return false;
    };
    fill(record, field, FIELDS, HEADER) && fill(record, step, steps, start + HEADER)
}

/// What the sequencer's check and the panel say of the same bytes: what the check accepts the panel accepts, with the name where the lookup by
/// place has it, and as many steps.
#[tactic(auto, using(crate::proofs::Panels::named_alike))]
pub fn check_and_panel(record: &[u8]) -> (RecordAnswer, PanelName)
    ensures { NamedAlike «record».now result.0 result.1 }
{
    (check_record(record), panel_name(record))
}

/// What the sequencer's lookup and the panel say of the step with a number: the panel has the name and the id that stand in what is found.
#[tactic(auto, using(crate::proofs::Panels::labelled_alike))]
pub fn step_and_panel(record: &[u8], number: usize) -> (Lookup, PanelStep)
    ensures { LabelledAlike «record».now number result.0 result.1 }
{
    (step(record, number), panel_step(record, number))
}
