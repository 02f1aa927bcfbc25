// The record of a scenario: the check that bytes are one, and the lookups of its fields and steps. A record comes from outside, so
// every job takes any bytes, checks them itself and writes nothing.
#![tactic(auto)]

ghost use Rattle.std.specs.Prelude.{◌≡◌, eqb, length, drop, MatchResult};
ghost use Rattle.std.specs.List.{list_any};
ghost use Rattle.std.specs.Option.{is_some as is_there};
ghost use Rattle.refusal.specs.Told.{refusal};
ghost use Rattle.item.specs.Kinds.{number_of};
ghost use Rattle.value.specs.Walks.{Walks};
ghost use Rattle.record.specs.Read.{field_of, as_text, as_optional, as_flag, as_items, as_command, as_expect};
ghost use Rattle.record.specs.Jobs as definition;
ghost use Rattle.record.specs.Jobs.{part_of, answer_of, lookup_of};
ghost use Rattle.record.specs.Contract.{of_kinds, ItemEnds, are_texts, are_defaults, is_step, steps_in, rest_steps};
ghost use Rattle.record.specs.Contract.{meaning_steps, record_steps, count_of, told_of, looked_of, StepsOf};

use entries::{Span, nth_item};
use item::{Encoded, HEADER, Item, Items, Kind, LIMIT, Part, header_at};
use meaning::{is_built_in, is_step_field};
use refusal::Refusal;
use value::{is_text, value_at};

// How many collections may be open, one in another, of the 32 of a document: `setup` and `fail_on` stand in the document's own mapping.
const FIELD_LEVELS: usize = 31;
// What a step holds stands in that mapping, in the sequence of its steps, and in the step's own mapping.
const STEP_LEVELS: usize = 29;

/// How many fields a record has; the last holds the steps.
pub const FIELDS: usize = 8;

/// What the check of a record answers.
// An enum of its own, as each public job answers: what it tells has names, and the definitions name its cases.
#[derive(Clone, Copy, Debug, PartialEq, Eq)]
pub enum RecordAnswer {
    Good { steps: usize },
    Refused(Refusal),
}

/// What a lookup answers: where the found item begins and ends in the record.
// An enum of its own, as each public job answers: what it tells has names, and the definitions name its cases.
#[derive(Clone, Copy, Debug, PartialEq, Eq)]
pub enum Lookup {
    Found { start: usize, end: usize },
    Nothing,
    Refused(Refusal),
}

/// The steps of a record: how many there are, and the part of it where their items stand.
#[derive(Clone, Copy, Debug)]
pub struct StepItems<'a> {
    pub count: usize,
    pub items: Part<'a>,
}

// A function of its own, since with the test in line the goals of `value_of` did not close.
fn is_among(item: Item, kinds: &[Kind]) -> bool
    ensures { result ≡ list_any (λ kind. eqb item.kind (number_of kind)) kinds.now }
{
    kinds.iter().any(|&kind| item.is(kind))
}

/// Whether texts fill these bytes, one behind another.
// A loop: under `all`, that its closure may be called and what it makes of all items stayed open.
#[tactic(auto, using(item::proofs::Turns::placed))]
pub fn are_texts(s: &[u8]) -> bool
    ensures { result ≡ are_texts s.now }
{
    for item in Items::new(s) {
        let Ok(item) = item else {
            return false;
        };
        if !is_text(s, item) {
            return false;
        }
    }
    true
}

// The ends of what begins at `at`, where it is what is wanted. The bytes and the place stand apart, as each answer is the next place, and
// what reads the fields names it after the one that begins there.

#[tactic(auto, using(value::proofs::Headers::item_there, value::proofs::Headers::no_item_there, crate::proofs::Headers::item_ends, crate::proofs::Headers::no_item_ends))]
fn item_of(s: Encoded<'_>, at: usize, kind: Kind) -> Option<usize>
    ensures { ItemEnds (number_of kind) s.entry.bytes.now at result }
{
    let item = header_at(s.bytes, at).ok()?;
    item.is(kind).then_some(item.to)
}

#[tactic(auto, using(value::proofs::Headers::item_there, value::proofs::Headers::no_item_there, crate::proofs::Views::text_ends, crate::proofs::Views::no_text_ends))]
fn text_at(s: Encoded<'_>, at: usize) -> Option<usize>
    ensures { Walks (field_of as_text 0) s.entry.bytes.now at result }
{
    let item = header_at(s.bytes, at).ok()?;
    is_text(s.bytes, item).then_some(item.to)
}

#[tactic(auto, using(crate::proofs::Views::no_text, crate::proofs::Views::command_ends))]
fn command_at(s: Encoded<'_>, at: usize) -> Option<usize>
    ensures { Walks (field_of as_command 0) s.entry.bytes.now at result }
{
    let end = text_at(s, at)?;
    let is_command = !is_step_field(&s.all()[at + HEADER..end]);
    is_command.then_some(end)
}

#[tactic(auto, using(value::proofs::Headers::no_item_there, crate::proofs::Views::no_walks))]
fn value_of(s: Encoded<'_>, at: usize, kinds: &[Kind], levels: usize) -> Option<usize>
    ensures { Walks (field_of (of_kinds kinds.now) levels) s.entry.bytes.now at result }
{
    let item = header_at(s.bytes, at).ok()?;
    if !is_among(item, kinds) {
        return None;
    }
    value_at(s, at, levels)
}

#[tactic(auto, using(crate::proofs::Views::optional_walks))]
fn optional_at(s: Encoded<'_>, at: usize) -> Option<usize>
    ensures { Walks (field_of as_optional 0) s.entry.bytes.now at result }
{
    value_of(s, at, &[Kind::Null, Kind::Str], 0)
}

#[tactic(auto, using(crate::proofs::Views::flag_walks))]
fn flag_at(s: Encoded<'_>, at: usize) -> Option<usize>
    ensures { Walks (field_of as_flag 0) s.entry.bytes.now at result }
{
    value_of(s, at, &[Kind::Bool], 0)
}

#[tactic(auto, using(crate::proofs::Views::items_walk))]
fn items_at(s: Encoded<'_>, at: usize) -> Option<usize>
    ensures { Walks (field_of as_items 31) s.entry.bytes.now at result }
{
    value_of(s, at, &[Kind::Seq], FIELD_LEVELS)
}

// No command that is built in has a mapping beside it.
#[tactic(auto, using(crate::proofs::Views::built_in_walks, crate::proofs::Views::expect_walks))]
fn expect_at(s: Encoded<'_>, at: usize, command: &[u8]) -> Option<usize>
    ensures { Walks (field_of (as_expect command.now) 29) s.entry.bytes.now at result }
{
    if is_built_in(command) {
        return value_of(s, at, &[Kind::Null], STEP_LEVELS);
    }
    value_of(s, at, &[Kind::Null, Kind::Map], STEP_LEVELS)
}

// Where bytes are the content of an item, fields fill them; below each place is named after the field that begins there. A test answers
// `Option<()>`, so that it is asked by `?` as each field is.

// Whether the last field ends where the bytes do.
fn filled(s: Encoded<'_>, end: usize) -> Option<()>
    ensures { is_there result ≡ eqb end (length s.entry.bytes.now) }
{
    (end == s.bytes.len()).then_some(())
}

fn defaults(s: Encoded<'_>) -> Option<()>
    ensures { is_there result ≡ are_defaults s.entry.bytes.now }
{
    let wall_budget = optional_at(s, 0)?;
    let end = optional_at(s, wall_budget)?;
    filled(s, end)
}

fn step_content(s: Encoded<'_>) -> Option<()>
    ensures { is_there result ≡ is_step s.entry.bytes.now }
{
    let id = text_at(s, 0)?;
    let command = text_at(s, id)?;
    let value = command_at(s, command)?;
    let timeout = value_at(s, value, STEP_LEVELS)?;
    let continues = optional_at(s, timeout)?;
    let expect = flag_at(s, continues)?;
    let end = expect_at(s, expect, &s.all()[command + HEADER..value])?;
    filled(s, end)
}

#[tactic(auto, using(value::proofs::Headers::ok_item, item::proofs::Turns::placed))]
fn steps(s: Encoded<'_>) -> Option<usize>
    ensures { count_of result ≡ steps_in s.entry.bytes.now }
{
    // Counted beside the walk, as a walk that is done does not tell how many it gave.
    let mut count = 0;
    for item in Items::new(s.bytes) {
        let item = item.ok()?;
        if !item.is(Kind::Step) {
            return None;
        }
        step_content(s.slice(item.from, item.to))?;
        count += 1;
    }
    Some(count)
}

// The last three fields: defaults, fail_on and steps.
fn rest(s: Encoded<'_>, at: usize) -> Option<usize>
    ensures { count_of result ≡ rest_steps (drop at s.entry.bytes.now) }
{
    let fail_on = item_of(s, at, Kind::Defaults)?;
    defaults(s.slice(at + HEADER, fail_on))?;
    let list = items_at(s, fail_on)?;
    let end = item_of(s, list, Kind::Steps)?;
    filled(s, end)?;
    steps(s.slice(list + HEADER, end))
}

// All eight fields, and how many steps the last has.
fn fields(s: Encoded<'_>) -> Option<usize>
    ensures { count_of result ≡ meaning_steps s.entry.bytes.now }
{
    let description = text_at(s, 0)?;
    let tags = text_at(s, description)?;
    let image = item_of(s, tags, Kind::Seq)?;
    if !are_texts(&s.bytes[tags + HEADER..image]) {
        return None;
    }
    let setup = text_at(s, image)?;
    let defaults = value_at(s, setup, FIELD_LEVELS)?;
    rest(s, defaults)
}

#[tactic(auto, using(crate::proofs::Chains::too_long, crate::proofs::Chains::no_record, crate::proofs::Chains::record_behind, crate::proofs::Chains::record_last))]
fn whole(record: &[u8]) -> Option<usize>
    ensures { count_of result ≡ record_steps «record».now }
{
    if record.len() > LIMIT {
        return None;
    }
    let record = Encoded { bytes: record };
    let end = item_of(record, 0, Kind::Scenario)?;
    filled(record, end)?;
    fields(record.slice(HEADER, end))
}

#[tactic(auto, using(crate::proofs::Answers::counted, crate::proofs::Answers::uncounted))]
fn checked(record: &[u8]) -> Result<usize, Refusal>
    ensures { told_of result ≡ definition.check_record «record».now }
{
    whole(record).ok_or(Refusal::Malformed)
}

impl From<Result<usize, Refusal>> for RecordAnswer {
    ghost from_gives = { λ checked answer. answer_of answer ≡ told_of checked };

    fn from(checked: Result<usize, Refusal>) -> RecordAnswer {
        match checked {
            Ok(steps) => RecordAnswer::Good { steps },
            Err(refusal) => RecordAnswer::Refused(refusal),
        }
    }
}

/// Whether these bytes are a record, and how many steps it has.
pub fn check_record(record: &[u8]) -> RecordAnswer
    ensures { answer_of result ≡ definition.check_record «record».now }
{
    RecordAnswer::from(checked(record))
}

impl From<Result<Option<Span>, Refusal>> for Lookup {
    ghost from_gives = { λ looked lookup. lookup_of lookup ≡ looked_of looked };

    fn from(looked: Result<Option<Span>, Refusal>) -> Lookup {
        match looked {
            Ok(Some(Span { start, end })) => Lookup::Found { start, end },
            Ok(None) => Lookup::Nothing,
            Err(refusal) => Lookup::Refused(refusal),
        }
    }
}

fn field_at(record: &[u8], place: usize) -> Result<Option<Span>, Refusal>
    ensures { looked_of result ≡ definition.field «record».now place }
{
    checked(record)?;
    if !(1..=FIELDS).contains(&place) {
        return Err(Refusal::OutOfRange);
    }
    Ok(nth_item(record, HEADER, place - 1))
}

/// The item of the field at this place, from 1 to 8 in the order of kind 16.
pub fn field(record: &[u8], place: usize) -> Lookup
    ensures { lookup_of result ≡ definition.field «record».now place }
{
    Lookup::from(field_at(record, place))
}

/// The steps of the record that these bytes are; the item of its last field holds them.
pub fn steps_of(record: &[u8]) -> Result<StepItems<'_>, Refusal>
    ensures { MatchResult result (StepsOf «record».now) (λ e. refusal e ≡ definition.check_record «record».now) }
{
    let count = checked(record)?;
    let list = nth_item(record, HEADER, FIELDS - 1).ok_or(Refusal::Malformed)?;
    let record = Encoded { bytes: record };
    Ok(StepItems {
        count,
        items: record.part(list.start + HEADER, list.end),
    })
}

/// The item of the step with this number, from 1 on, where a refusal is handed on by `?`.
pub fn step_at(record: &[u8], number: usize) -> Result<Option<Span>, Refusal>
    ensures { looked_of result ≡ definition.step «record».now number }
{
    let steps = steps_of(record)?;
    if !(1..=steps.count).contains(&number) {
        return Err(Refusal::OutOfRange);
    }
    Ok(nth_item(record, steps.items.from, number - 1))
}

/// The same, told as each lookup tells.
pub fn step(record: &[u8], number: usize) -> Lookup
    ensures { lookup_of result ≡ definition.step «record».now number }
{
    Lookup::from(step_at(record, number))
}

/// The part of the record from `start` to `end`; the empty part where these are no places of it in order.
#[tactic(auto, using(crate::proofs::Headers::part_got))]
pub fn part(record: &[u8], start: usize, end: usize) -> &[u8]
    ensures { result.now ≡ part_of «record».now start end }
{
    record.get(start..end).unwrap_or(&[])
}
