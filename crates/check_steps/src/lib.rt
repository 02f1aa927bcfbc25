// The check of a record's steps: whether each command is built in or among the names that the caller lends, and whether each `repeat`
// holds steps. A record and a name list come from outside: any bytes are taken and checked, and nothing is written.
#![tactic(auto)]

ghost use Rattle.std.specs.Prelude.{◌≡◌, List, ℕ, ◌+◌, drop};
ghost use Rattle.std.proofs.Math.Option.{some};
ghost use Rattle.refusal.specs.Base.{one_of};
ghost use Rattle.item.specs.Tree.{Yaml, Items as Trees, Ranged};
ghost use Rattle.step_lines.specs.StepLines.{head_line};
ghost use Rattle.entries.specs.Entries.{Stands, HoldsIn};
ghost use Rattle.nodes.specs.Contract.{IsNode, FindsNode};
ghost use Rattle.meaning.specs.Meaning.{Step};
ghost use Rattle.meaning.specs.Record.{step_item};
ghost use Rattle.record.specs.Contract.{is_some, StepsLie, told_of};
ghost use Rattle.check_steps.specs.Names.{filled, names_in};
ghost use Rattle.check_steps.specs.CheckSteps as definition;
ghost use Rattle.check_steps.specs.CheckSteps.{answer_of, known, repeated, check_inner, check_repeat, check_step, check_from};

use entries::nth_item;
use item::{Encoded, HEADER, Item, Items, Kind, Part, header_at, same_bytes};
use meaning::is_built_in;
use nodes::{Node, value_of};
use record::{are_texts, steps_of};
use refusal::Refusal;
use step::read_step;

/// What the check of the steps answers.
// An enum of its own, as each public job answers: what it tells has names, and the definitions name its cases.
#[derive(Clone, Copy, Debug, PartialEq, Eq)]
pub enum StepsAnswer {
    Good { steps: usize },
    Refused(Refusal),
}

// `RecordAnswer`, `TimesAnswer` and `Lookup` have the like, the first with this very body: the definitions name the cases of each, so one
// conversion for all would be a trait that each hands both its cases, and no plainer.
impl From<Result<usize, Refusal>> for StepsAnswer {
    ghost from_gives = { λ checked answer. answer_of answer ≡ told_of checked };

    fn from(checked: Result<usize, Refusal>) -> StepsAnswer {
        match checked {
            Ok(steps) => StepsAnswer::Good { steps },
            Err(refusal) => StepsAnswer::Refused(refusal),
        }
    }
}

// Whether these bytes are a name list.
fn is_list(names: &[u8]) -> bool
    ensures { result ≡ is_some (names_in names.now) }
{
    let Ok(list) = header_at(names, 0) else {
        return false;
    };
    let is_whole = list.to == names.len();
    list.is(Kind::Seq) && is_whole && are_texts(&names[list.from..list.to])
}

// Whether a key is one of the names that fill `names`.
// By `for`: with `any` neither the bounds in its closure nor what it found proved, since each is told of runs of the walk and wants an
// induction of its own, where this loop has one invariant for both.
#[tactic(auto, using(item::proofs::Headers::spans, crate::proofs::Names::unread_start))]
fn is_name(names: &[u8], key: &[u8]) -> bool
    ensures { (ns : List (List ℕ)) → filled names.now ≡ some ns → result ≡ one_of key.now ns }
{
    for name in Items::new(names) {
        let Ok(name) = name else {
            return false;
        };
        if same_bytes(key, &names[name.from..name.to]) {
            return true;
        }
    }
    false
}

#[tactic(auto, unfolding(crate::specs::CheckSteps::known))]
fn is_known(names: &[u8], key: &[u8]) -> bool
    ensures { (ns : List (List ℕ)) → filled names.now ≡ some ns → result ≡ known ns key.now }
{
    is_built_in(key) || is_name(names, key)
}

// A step that is checked, by its line and its number, and the names that its command may have beside those that are built in.
#[derive(Clone, Copy)]
struct Site<'a> {
    names: &'a [u8],
    line: u32,
    number: u32,
}

// What is lent to the functions below may be any bytes: they refuse as malformed what is no steps, which never stands in a record.
// That names fill the bytes lent as `names` is a premise and no ghost field of a struct: the clauses need the list of names itself, which a
// ghost field would not give them.

// The steps of a `repeat`. All of them are read before one is refused for its command, so the walk goes on where one is not known.
#[tactic(auto, using(item::proofs::Headers::spans, crate::proofs::Inner::walk_start))]
fn check_inner(steps: Part<'_>, outer: Site<'_>) -> Result<(), Refusal>
    ensures { (ns : List (List ℕ)) → filled outer.entry.names.now ≡ some ns → (ys : Trees)
        → HoldsIn steps.entry ys
        → told_of result ≡ check_inner ns outer.entry.line outer.entry.number ys }
{
    let mut all_known = true;
    for (before, item) in steps.walk::<Item>().enumerate() {
        let Ok(item) = item else {
            return Err(Refusal::Malformed);
        };
        let number = before as u32 + 1;
        // Written out, since this turn of the walk tells that it is one; a walk over nodes would be an iterator of its own.
        let node = Node {
            bytes: steps.bytes,
            item,
        };
        // These have no lines: 0 names none, as in the definition.
        let step = read_step(Some(node), 0, number)?;
        all_known &= is_known(outer.names, step.key);
    }
    if all_known {
        return Ok(());
    }
    Err(Refusal::UnknownCommand {
        line: outer.line,
        step: outer.number,
    })
}

// What stands beside `steps` in a mapping.
fn find_steps(value: Node<'_>) -> Option<Node<'_>>
    ensures { (v : Yaml) → IsNode v value.entry → FindsNode (repeated v) result }
{
    value_of(value.mapping()?, b"steps")
}

// The value of a step that is a `repeat`.
fn check_repeat(value: Node<'_>, site: Site<'_>) -> Result<(), Refusal>
    ensures { (ns : List (List ℕ)) → filled site.entry.names.now ≡ some ns → (v : Yaml) → IsNode v value.entry
        → told_of result ≡ check_repeat ns site.entry.line site.entry.number v }
{
    let Some(steps) = find_steps(value) else {
        return Err(Refusal::RepeatWithoutSteps { step: site.number });
    };
    if steps.is(Kind::Null) {
        return Ok(());
    }
    let Some(items) = steps.sequence() else {
        return Err(Refusal::StepsNotSequence);
    };
    check_inner(items, site)
}

// The step whose parts begin at `from`. Its key is the third of them, its value stands behind that. The bytes and the place stand apart, as
// `nth_item` takes them: a node of the step would be made for this call alone.
#[tactic(auto, using(entries::proofs::Counting::nth_inside))]
fn check_step(s: Encoded<'_>, from: usize, site: Site<'_>) -> Result<(), Refusal>
    ensures { (ns : List (List ℕ)) → filled site.entry.names.now ≡ some ns → (at : ℕ) (x : Step) → from ≡ at + 6 → Ranged x.value
        → Stands s.entry.bytes.now at (step_item x) → told_of result ≡ check_step ns site.entry.line site.entry.number x }
{
    let key = nth_item(s.bytes, from, 2).ok_or(Refusal::Malformed)?;
    let command = &s.bytes[key.start + HEADER..key.end];
    if !is_known(site.names, command) {
        return Err(Refusal::UnknownCommand {
            line: site.line,
            step: site.number,
        });
    }
    if !same_bytes(command, b"repeat") {
        return Ok(());
    }
    let value = Node::at(s, key.end).ok_or(Refusal::Malformed)?;
    check_repeat(value, site)
}

// The line of the step with so many before it, or 0, which names no line, as in the definition.
#[tactic(auto, using(crate::proofs::Steps::line_is))]
fn line_of(lines: &[u32], before: usize) -> u32
    ensures { result ≡ head_line (drop before lines.now) }
{
    lines.get(before).copied().unwrap_or(0)
}

// The steps whose items stand one behind another.
#[tactic(auto, using(item::proofs::Headers::spans))]
fn check_all(steps: Part<'_>, lines: &[u32], names: &[u8]) -> Result<(), Refusal>
    ensures { (ns : List (List ℕ)) → filled names.now ≡ some ns → (xs : List Step)
        → StepsLie steps.entry.bytes.now steps.entry.from steps.entry.to xs → told_of result ≡ check_from ns 1 lines.now xs }
{
    for (before, item) in steps.walk::<Item>().enumerate() {
        let Ok(item) = item else {
            return Err(Refusal::Malformed);
        };
        let site = Site {
            names,
            line: line_of(lines, before),
            number: before as u32 + 1,
        };
        check_step(steps.encoded(), item.from, site)?;
    }
    Ok(())
}

// How many steps were checked, all of them good.
fn checked(record: &[u8], lines: &[u32], names: &[u8]) -> Result<usize, Refusal>
    ensures { told_of result ≡ definition.check_steps «record».now lines.now names.now }
{
    let steps = steps_of(record)?;
    if !is_list(names) {
        return Err(Refusal::Malformed);
    }
    check_all(steps.items, lines, &names[HEADER..])?;
    Ok(steps.count)
}

/// Checks the record and its steps: each command is built in or one of `names`, an item of kind 4 that holds strings, and each `repeat` holds
/// steps of such commands; a `repeat` among these is not entered. `lines` are those of the steps; a step beyond them is told with line 0.
/// Bytes that are no record are refused first, then those that are no list of names, then the first step that is at fault.
pub fn check_steps(record: &[u8], lines: &[u32], names: &[u8]) -> StepsAnswer
    ensures { answer_of result ≡ definition.check_steps «record».now lines.now names.now }
{
    StepsAnswer::from(checked(record, lines, names))
}
