// A step in the bytes of its mapping: read as its values where they stand, which writes nothing, and written from them as its item.
#![tactic(auto)]

ghost use Rattle.std.specs.Prelude.{◌≡◌, ◌^◌, List, ℕ, IfOk};
ghost use Rattle.std.proofs.Math.Option.{Option};
ghost use Rattle.item.specs.Tree.{Yaml, Entries};
ghost use Rattle.entries.specs.Entries.{HoldsIn};
ghost use Rattle.nodes.specs.Writing.{GoesAtMost, Writes};
ghost use Rattle.nodes.specs.Contract.{NodeOf, FindsNode, AgreesPart};
ghost use Rattle.meaning.specs.Meaning.{Step};
ghost use Rattle.meaning.specs.Record.{step_item};
ghost use Rattle.meaning.specs.Meanings.{is_true, step_of, step_at};
ghost use Rattle.step.specs.Contract.{StepStands, AgreesStep, AgreesExpect, AgreesAllowed, AgreesEntries, EntriesInside, StepInside, StandsAs, field_with, command_with};

mod parts;

use entries::Pair;
use item::{Found, Item, Kind, Part};
use meaning::{StepField, is_built_in};
use nodes::{Node, RecordWriter};
pub use parts::{StepFields, StepNodes};
use refusal::Refusal;

// The entries whose key is no step field: none, one, or more.
#[derive(Clone, Copy)]
enum Command {
    Nothing,
    One { key: usize, value: usize },
    More,
}

// What entries say: the step fields, and where the key of the command stands, if there is one command. Its value begins where the key ends.
#[derive(Clone, Copy)]
struct StepEntries<'a> {
    fields: StepFields<'a>,
    command: Option<Part<'a>>,
}

// A field with one entry more of its key, whose value begins at `value`: the first counts.
fn field_with(field: Found, value: usize) -> Found
    ensures { result ≡ field_with field value }
{
    match field {
        Found::Nothing => Found::At(value),
        Found::At(_) => field,
    }
}

// The command with one entry more.
fn command_with(command: Command, key: usize, value: usize) -> Command
    ensures { result ≡ command_with command key value }
{
    match command {
        Command::Nothing => Command::One { key, value },
        Command::One { .. } | Command::More => Command::More,
    }
}

// What the entries of a part say, in one walk. What was found so far stands in locals, since a struct handed on was slower: it is
// copied at each entry. It is places, two words each, until the walk is over.
#[tactic(auto, using(entries::proofs::Walking::places_of))]
fn entries_in(part: Part<'_>) -> StepEntries<'_>
    ensures inside { EntriesInside part.entry.bytes.now result }
    ensures entries { (es : Entries) → HoldsIn part.entry es → AgreesEntries es result }
{
    let mut name = Found::Nothing;
    let mut id = Found::Nothing;
    let mut timeout = Found::Nothing;
    let mut continues = Found::Nothing;
    let mut expect = Found::Nothing;
    let mut command = Command::Nothing;
    for pair in part.walk::<Pair>() {
        let Ok(pair) = pair else {
            break;
        };
        match StepField::of(&part.bytes[pair.start..pair.end]) {
            Some(StepField::Name) => name = field_with(name, pair.end),
            Some(StepField::Id) => id = field_with(id, pair.end),
            Some(StepField::Timeout) => timeout = field_with(timeout, pair.end),
            Some(StepField::Continues) => continues = field_with(continues, pair.end),
            Some(StepField::Expect) => expect = field_with(expect, pair.end),
            None => command = command_with(command, pair.start, pair.end),
        }
    }
    let s = part.encoded();
    StepEntries {
        fields: StepFields {
            name: Node::found(s, name),
            id: Node::found(s, id),
            timeout: Node::found(s, timeout),
            continues: Node::found(s, continues),
            expect: Node::found(s, expect),
        },
        command: match command {
            Command::One { key, value } => Some(s.part(key, value)),
            Command::Nothing | Command::More => None,
        },
    }
}

// Whether `expect` is absent or a mapping.
fn expect_fits(expect: Option<Node<'_>>) -> bool
    ensures { (o : Option Yaml) → FindsNode o expect.entry → AgreesExpect o result }
{
    expect.is_none_or(|node| node.is(Kind::Map))
}

// Whether `expect` is absent or this key is no built-in command.
fn expect_allowed(expect: Option<Node<'_>>, key: &[u8]) -> bool
    ensures { AgreesAllowed expect.entry key.now result }
{
    expect.is_none() || !is_built_in(key)
}

// The step of the entries of a part.
fn read_entries(part: Part<'_>, line: u32, number: u32) -> Result<StepNodes<'_>, Refusal>
    ensures inside { IfOk result (StepInside part.entry.bytes.now) }
    ensures step { (es : Entries) → HoldsIn part.entry es → AgreesStep (step_of line number es) result }
{
    let StepEntries { fields, command } = entries_in(part);
    let fits = expect_fits(fields.expect);
    if !fits {
        return Err(Refusal::ExpectNotMapping { line, step: number });
    }
    let command = command.ok_or(Refusal::NotOneCommand { step: number })?;
    let key = &command.bytes[command.from..command.to];
    let allowed = expect_allowed(fields.expect, key);
    if !allowed {
        return Err(Refusal::ExpectBesideBuiltIn { line, step: number });
    }
    // The walk has read this header, so it does not happen.
    let value = Node::at(command.encoded(), command.to);
    let value = value.ok_or(Refusal::NotOneCommand { step: number })?;
    Ok(StepNodes { fields, key, value })
}

/// The step that a value is, in this line and with this number. Where none stands it is refused as one that is no mapping.
// The two go side by side, as each refusal and the definition `step_at` name them: a struct would be taken apart again three times.
pub fn read_step(node: Option<Node<'_>>, line: u32, number: u32) -> Result<StepNodes<'_>, Refusal>
    ensures inside { (s : List ℕ) → NodeOf s node.entry → IfOk result (StepInside s) }
    ensures step { (y : Yaml) → StandsAs y node.entry → AgreesStep (step_at line number y) result }
{
    let entries = node
        .and_then(Node::mapping)
        .ok_or(Refusal::StepNotMapping { step: number })?;
    read_entries(entries, line, number)
}

// Whether a value is the boolean true. By its byte, since of a byte that no boolean has the text is `true` too.
fn is_true(node: Option<Node<'_>>) -> bool
    ensures { (o : Option Yaml) → FindsNode o node.entry → result ≡ is_true o }
{
    let Some(node) = node else {
        return false;
    };
    if !node.is(Kind::Bool) {
        return false;
    }
    let Item { from, to, .. } = node.item;
    from < to && node.bytes[from] == 1
}

// The item of a step.
fn put_step(step: StepNodes<'_>, writer: &mut RecordWriter<'_>)
    ensures goes { GoesAtMost (2 ^ 24) writer.old writer.new }
    ensures step { (read : Step) → StepStands read step.entry → Writes writer.old writer.new (step_item read) }
{
    let StepFields {
        name,
        id,
        timeout,
        continues,
        expect,
    } = step.fields;
    let header = writer.open();
    writer.text_or_empty(name);
    writer.text_or_empty(id);
    writer.text(step.key);
    writer.value_or_null(Some(step.value));
    writer.text_or_null(timeout);
    writer.bool(is_true(continues));
    writer.value_or_null(expect);
    writer.close(header, Kind::Step);
}

/// The step that a value is, in this line and with this number, written as its item.
pub fn step_at(
    node: Option<Node<'_>>,
    line: u32,
    number: u32,
    writer: &mut RecordWriter<'_>,
) -> Result<(), Refusal>
    ensures goes { GoesAtMost (2 ^ 24) writer.old writer.new }
    ensures step { (y : Yaml) → StandsAs y node.entry → AgreesPart (step_at line number y) step_item writer.old writer.new result }
{
    let step = read_step(node, line, number)?;
    put_step(step, writer);
    Ok(())
}
