// What a panel looks up in a record: a step by its id, a value by its key, and how often a step is repeated. A record comes from
// outside, so every job takes any bytes, checks them itself and writes nothing.
#![tactic(auto)]

ghost use Rattle.std.specs.Prelude.{◌≡◌, ℕ, ◌+◌, ◌≤◌, List, map, length};
ghost use Rattle.refusal.specs.Base.{good, maybe};
ghost use Rattle.item.specs.Tree.{Yaml, Entries, int, Ranged};
ghost use Rattle.item.specs.Encode.{encode, signed};
ghost use Rattle.entries.specs.Entries.{Stands, HoldsIn};
ghost use Rattle.meaning.specs.Meaning.{Step};
ghost use Rattle.meaning.specs.Record.{step_item};
ghost use Rattle.record.specs.Jobs.{nothing, numbered, lookup_of};
ghost use Rattle.record.specs.Contract.{StepsLie, span_of, looked_of, told_of};
ghost use Rattle.lookups.specs.Lookups as definition;
ghost use Rattle.lookups.specs.Lookups.{has_id, number_of, beside, in_mapping, value_in, item_part, times_in, times_of};

use entries::{Span, find, item_at, nth_item};
use item::{Encoded, Found, HEADER, Integer, Item, Part, same_bytes};
use nodes::Node;
use record::{Lookup, step_at, steps_of};
use refusal::Refusal;

/// What `times` answers.
// An enum of its own, as each public job answers: what it tells has names, and the definitions name its cases.
#[derive(Clone, Copy, Debug, PartialEq, Eq)]
pub enum TimesAnswer {
    Times(u32),
    Refused(Refusal),
}

impl From<Result<u32, Refusal>> for TimesAnswer {
    ghost use Rattle.lookups.specs.Lookups.{times_of};
    ghost use Rattle.record.specs.Contract.{told_of};

    ghost from_gives = { λ told answer. times_of answer ≡ told_of told };

    fn from(told: Result<u32, Refusal>) -> TimesAnswer {
        match told {
            Ok(times) => TimesAnswer::Times(times),
            Err(refusal) => TimesAnswer::Refused(refusal),
        }
    }
}

// The bytes and the place stand apart here and below, and no node is taken: the definitions tell which item it is by its place, and `nth_item`
// takes the two so. Each node would be made for one call.

// Whether the step whose parts begin at `from` has this id, the second of them.
#[tactic(auto, using(entries::proofs::Counting::nth_inside, crate::proofs::Ids::no_id))]
fn has_id(s: Encoded<'_>, from: usize, id: &[u8]) -> bool
    ensures { (at : ℕ) (step : Step) → from ≡ at + 6 → Stands s.entry.bytes.now at (step_item step)
        → result ≡ has_id id.now step }
{
    if id.is_empty() {
        return false;
    }
    match nth_item(s.bytes, from, 1) {
        Some(part) => same_bytes(&s.bytes[part.start + HEADER..part.end], id),
        None => false,
    }
}

// The first of the steps that has this id.
#[tactic(auto, using(item::proofs::Headers::spans, crate::proofs::Ids::ids_end))]
fn find_id(steps: Part<'_>, id: &[u8]) -> Option<Span>
    ensures { (xs : List Step) → StepsLie steps.entry.bytes.now steps.entry.from steps.entry.to xs → span_of result
        ≡ maybe (number_of id.now 1 xs) (good nothing) (numbered steps.entry.from (map step_item xs)) }
{
    for step in steps.walk::<Item>() {
        let step = step.ok()?;
        if has_id(steps.encoded(), step.from, id) {
            let found = Span {
                start: step.from - HEADER,
                end: step.to,
            };
            return Some(found);
        }
    }
    None
}

// The step with this id, if the bytes are a record.
fn with_id(record: &[u8], id: &[u8]) -> Result<Option<Span>, Refusal>
    ensures { looked_of result ≡ definition.step_by_id «record».now id.now }
{
    let steps = steps_of(record)?;
    Ok(find_id(steps.items, id))
}

/// The item of the first step with this id. No step has the empty id, so that finds nothing.
pub fn step_by_id(record: &[u8], id: &[u8]) -> Lookup
    ensures { lookup_of result ≡ definition.step_by_id «record».now id.now }
{
    Lookup::from(with_id(record, id))
}

// The value beside a key, among the entries of a part. Not `nodes::value_of`: which item it is hangs on its place, which `find` tells by
// its clause `place`, and `value_of` promises the value alone.
#[tactic(auto, using(crate::proofs::Values::nothing_beside, crate::proofs::Values::item_beside))]
fn find_value(part: Part<'_>, key: &[u8]) -> Option<Span>
    ensures { (es : Entries) → HoldsIn part.entry es
        → span_of result ≡ good (item_part (beside key.now part.entry.from es)) }
{
    let Found::At(place) = find(part, key) else {
        return None;
    };
    item_at(part.bytes, place)
}

// The same in the value at `at`, if that is a mapping.
fn in_mapping(s: Encoded<'_>, at: usize, key: &[u8]) -> Option<Span>
    ensures { (v : Yaml) → Ranged v → Stands s.entry.bytes.now at (encode v)
        → span_of result ≡ good (item_part (in_mapping key.now at v)) }
{
    let entries = Node::at(s, at)?.mapping()?;
    find_value(entries, key)
}

// The same in the value of the step at `at`, the fourth of its parts.
fn value_in(s: Encoded<'_>, at: usize, key: &[u8]) -> Option<Span>
    requires { at + 6 ≤ length s.bytes.now }
    ensures { (step : Step) → Ranged step.value → Stands s.entry.bytes.now at (step_item step)
        → span_of result ≡ good (item_part (value_in key.now at step)) }
{
    let value = nth_item(s.bytes, at + HEADER, 3)?;
    in_mapping(s, value.start, key)
}

// The value beside a key, if the bytes are a record that has the step.
#[tactic(auto, using(crate::proofs::Numbers::number_there))]
fn beside_key(record: &[u8], number: usize, key: &[u8]) -> Result<Option<Span>, Refusal>
    ensures { looked_of result ≡ definition.value_by_key «record».now number key.now }
{
    let Some(step) = step_at(record, number)? else {
        return Ok(None);
    };
    let record = Encoded { bytes: record };
    Ok(value_in(record, step.start, key))
}

/// The item of the value beside a key, in the mapping beside the command of the step with this number. Steps are numbered from 1; nothing
/// where that value is no mapping or lacks the key, and refused where no step has the number.
pub fn value_by_key(record: &[u8], number: usize, key: &[u8]) -> Lookup
    ensures { lookup_of result ≡ definition.value_by_key «record».now number key.now }
{
    Lookup::from(beside_key(record, number, key))
}

// An integer as the times of the step with this number.
#[tactic(auto, using(crate::proofs::Values::times_negative, crate::proofs::Values::times_zero, crate::proofs::Values::times_large, crate::proofs::Values::times_good))]
fn times_of(n: Integer, number: u32) -> Result<u32, Refusal>
    ensures { told_of result ≡ times_in number (int (signed n.negative n.magnitude)) }
{
    let is_zero = n.magnitude == 0;
    if n.negative || is_zero {
        return Err(Refusal::TimesNotPositive { step: number });
    }
    u32::try_from(n.magnitude).or(Err(Refusal::TimesTooLarge { step: number }))
}

// The same of the value at `at`: what is no item and what is no integer are refused by the same words.
fn times_at(s: Encoded<'_>, at: usize, number: u32) -> Result<u32, Refusal>
    ensures { (v : Yaml) → Ranged v → Stands s.entry.bytes.now at (encode v) → told_of result ≡ times_in number v }
{
    let n = Node::at(s, at).and_then(Node::integer);
    let n = n.ok_or(Refusal::TimesNotPositive { step: number })?;
    times_of(n, number)
}

// How often the step is repeated, if the bytes are a record that has it.
fn told_times(record: &[u8], number: usize) -> Result<u32, Refusal>
    ensures { told_of result ≡ definition.times «record».now number }
{
    let found = beside_key(record, number, b"times")?;
    let step = number as u32;
    let times = found.ok_or(Refusal::TimesNotPositive { step })?;
    let record = Encoded { bytes: record };
    times_at(record, times.start, step)
}

/// How often the step with this number is repeated, which its `times` says: an integer from 1 to 4,294,967,295. Refused where there is
/// none such.
pub fn times(record: &[u8], number: usize) -> TimesAnswer
    ensures { times_of result ≡ definition.times «record».now number }
{
    TimesAnswer::from(told_times(record, number))
}
