// What a panel on the wall shows of a record: the programme's name, and each step's number, name and id. Panels outlive drums, so what they do
// not show is passed over by its length, of whatever kind it is.
#![tactic(auto)]

ghost use Rattle.std.specs.Prelude.{◌≡◌, ◌≤◌, ◌&&◌, ◌==◌, List, length, is_some, IfSome, Some};
ghost use Rattle.std.specs.Option.{option_map};
ghost use Rattle.panel.specs.Panel.{items_from, labels_of, steps_in, numbered};
ghost use Rattle.panel.specs.declared.Labels.{Labels as Named};
ghost use Rattle.panel.specs.Jobs as definition;
ghost use Rattle.panel.specs.Jobs.{name_of, step_of};
ghost use Rattle.panel.specs.Programmes.{ShowsName, ShowsStep};
ghost use Rattle.panel.specs.Contract.{text_from, Inside, LabelsInside, NthFrom, SeesProgramme};

use entries::nth_item;
use item::{HEADER, Item, Items, Kind, header_at};
use refusal::Refusal;
use value::is_text;

// How many items stand between the name and the item that holds the steps.
const BETWEEN: usize = 6;

/// What a panel shows of a programme: where the item of its name begins and ends in the record, and how many steps there are.
// An enum of its own, as each public job answers: what it tells has names, and the definitions name its cases.
#[derive(Clone, Copy, Debug, PartialEq, Eq)]
pub enum PanelName {
    Named {
        start: usize,
        end: usize,
        steps: usize,
    },
    Refused(Refusal),
}

/// What a panel shows of a step: where the items of its name and of its id begin and end in the record.
// An enum of its own, as each public job answers: what it tells has names, and the definitions name its cases.
#[derive(Clone, Copy, Debug, PartialEq, Eq)]
pub enum PanelStep {
    Found {
        name_start: usize,
        name_end: usize,
        id_start: usize,
        id_end: usize,
    },
    Refused(Refusal),
}

// A step's name and its id.
#[derive(Clone, Copy)]
struct Labels {
    name: Item,
    id: Item,
}

// The programme's name, the item that holds its steps, and how many these are.
#[derive(Clone, Copy)]
struct Programme {
    name: Item,
    list: Item,
    steps: usize,
}

// Whether items, one behind another, stand from a place to the end.
fn are_items(s: &[u8], at: usize) -> bool
    requires { at ≤ length s.now }
    ensures { result ≡ is_some (items_from s.now at) }
{
    for item in Items::within(s, at, s.len()) {
        let Ok(_) = item else {
            return false;
        };
    }
    true
}

// The item that so many others stand before, from a place on.
fn nth_at(s: &[u8], at: usize, before: usize) -> Option<Item>
    ensures inside { IfSome result (Inside s.now) }
    ensures nth { NthFrom s.now at before result }
{
    let span = nth_item(s, at, before)?;
    header_at(s, span.start).ok()
}

// The item at a place, if it is a text.
fn text_at(s: &[u8], at: usize) -> Option<Item>
    ensures inside { IfSome result (Inside s.now) }
    ensures text { result ≡ text_from s.now at }
{
    let item = header_at(s, at).ok()?;
    is_text(s, item).then_some(item)
}

// The name and the id of a step, its first two items.
fn labels_of(s: &[u8], step: Item) -> Option<Labels>
    requires { Inside s.now step }
    ensures inside { IfSome result (LabelsInside s.now) }
    ensures labels { result ≡ labels_of s.now step }
{
    let content = &s[..step.to];
    let name = text_at(content, step.from)?;
    let id = text_at(content, name.to)?;
    are_items(content, id.to).then_some(Labels { name, id })
}

// How many steps an item holds.
fn count_steps(s: &[u8], list: Item) -> Option<usize>
    requires { Inside s.now list }
    ensures { result ≡ option_map length (steps_in s.now list) }
{
    // Counted beside the walk, as a walk that is done does not tell how many it gave.
    let mut count = 0;
    for item in Items::within(&s[..list.to], list.from, list.to) {
        let item = item.ok()?;
        labels_of(s, item)?;
        count += 1;
    }
    Some(count)
}

fn is_whole(s: &[u8], item: Item) -> bool
    ensures { result ≡ item.kind == 16 && item.to == length s.now }
{
    item.is(Kind::Scenario) && item.to == s.len()
}

fn read_programme(s: &[u8]) -> Option<Programme>
    ensures { SeesProgramme s.now result }
{
    let whole = header_at(s, 0).ok()?;
    if !is_whole(s, whole) {
        return None;
    }
    let name = text_at(s, whole.from)?;
    if !are_items(s, name.to) {
        return None;
    }
    let list = nth_at(s, name.to, BETWEEN)?;
    let steps = count_steps(s, list)?;
    Some(Programme { name, list, steps })
}

// The name and the id of the step with this number, among those that an item holds.
fn labels_at(s: &[u8], list: Item, number: usize) -> Option<Labels>
    requires { Inside s.now list }
    ensures inside { IfSome result (LabelsInside s.now) }
    ensures labels { (steps : List Named) → steps_in s.now list ≡ Some steps → result ≡ numbered steps number }
{
    let before = number.checked_sub(1)?;
    let step = nth_at(&s[..list.to], list.from, before)?;
    labels_of(s, step)
}

/// The programme's name and how many steps it has. Whatever else the record holds is passed over by its length, of whatever kind it is, and
/// there is no limit on the record's size. Refused with 55 unless the bytes are one item of kind 16 that items fill, at least eight: the
/// first a text, the name, and the eighth filled by steps. Each step is filled by items, too, of which the first two are texts, its name and
/// its id. All of them are judged before anything is given.
pub fn panel_name(record: &[u8]) -> PanelName
    ensures answer { name_of result ≡ definition.panel_name «record».now }
    ensures programmes { ShowsName «record».now (name_of result) }
{
    let Some(Programme { name, steps, .. }) = read_programme(record) else {
        return PanelName::Refused(Refusal::NotForPanel);
    };
    PanelName::Named {
        start: name.from - HEADER,
        end: name.to,
        steps,
    }
}

/// The name and the id of the step with this number, from 1 on. Refused with 55 like the name, then with 53 where there is no such step.
pub fn panel_step(record: &[u8], number: usize) -> PanelStep
    ensures answer { step_of result ≡ definition.panel_step «record».now number }
    ensures programmes { ShowsStep «record».now number (step_of result) }
{
    let Some(Programme { list, .. }) = read_programme(record) else {
        return PanelStep::Refused(Refusal::NotForPanel);
    };
    let Some(Labels { name, id }) = labels_at(record, list, number) else {
        return PanelStep::Refused(Refusal::OutOfRange);
    };
    PanelStep::Found {
        name_start: name.from - HEADER,
        name_end: name.to,
        id_start: id.from - HEADER,
        id_end: id.to,
    }
}
