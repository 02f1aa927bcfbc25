// The top keys of a scenario in the bytes of its tree: the nodes of their values, and from these the fields of its record. Reading writes
// nothing, and writing refuses nothing.
#![tactic(auto)]

ghost use Rattle.std.specs.Prelude.{◌≡◌, ◌≢◌, ◌+◌, ◌-◌, ◌*◌, ◌≤◌, ◌^◌, List, ℕ, Some, IfOk, IfSome, length, nat_lt};
ghost use Rattle.std.proofs.Math.Option.{Option};
ghost use Rattle.refusal.specs.Base.{same};
ghost use Rattle.utf8.specs.Part.{part as part_of};
ghost use Rattle.item.specs.Tree as trees;
ghost use Rattle.item.specs.Tree.{Yaml, Entries, Ranged, get};
ghost use Rattle.item.specs.Encode as items;
ghost use Rattle.item.specs.Encode.{encode};
ghost use Rattle.entries.specs.Entries.{Stands, HoldsIn};
ghost use Rattle.nodes.specs.Writing.{GoesAtMost, Writes};
ghost use Rattle.nodes.specs.Contract.{NodeOf, FindsNode, AgreesMapping, scalar_text, text_of};
ghost use Rattle.meaning.specs.Meaning as meaning;
ghost use Rattle.meaning.specs.Record.{joined, tags_item, defaults_item};
ghost use Rattle.meaning.specs.Meanings.{schema, Top, texts_of, no_defaults, defaults_from, defaults_of, top_of};
ghost use Rattle.top.specs.Contract.{TopStands, AgreesTop, TopInside, DefaultsInside, top_fields};
ghost use Rattle.top.specs.Contract.{no_null, AgreesScalar, KnownKeys, Passed, AgreesSequence, default_key, DefaultsStand, AgreesDefaults};

use entries::Pair;
use item::{Encoded, Item, Kind, Part, same_bytes};
use meaning::is_top_key;
use nodes::{Node, RecordWriter, Scalar, scalar_of, value_of};
use refusal::Refusal;

/// The two defaults.
#[derive(Clone, Copy, Debug, Default)]
pub struct DefaultNodes<'a> {
    pub timeout: Option<Node<'a>>,
    pub wall_budget: Option<Node<'a>>,
}

// The keys of the defaults.
#[derive(Clone, Copy)]
enum DefaultKey {
    Timeout,
    WallBudget,
}

/// The parts of a scenario where they stand: values, and the items of sequences.
#[derive(Clone, Copy, Debug)]
pub struct TopNodes<'a> {
    pub name: Option<Node<'a>>,
    pub description: Option<Node<'a>>,
    pub tags: Part<'a>,
    pub image: Option<Node<'a>>,
    pub setup: Option<Node<'a>>,
    pub defaults: DefaultNodes<'a>,
    pub fail_on: Part<'a>,
    pub steps: Part<'a>,
}

// The entries of the mapping at the front.
fn document(s: Encoded<'_>) -> Option<Part<'_>>
    ensures bytes { IfSome result (λ part. part.bytes ≡ s.entry.bytes) }
    ensures entries { (y : Yaml) → Ranged y → Stands s.entry.bytes.now 0 (encode y) → AgreesMapping y result }
{
    Node::at(s, 0)?.mapping()
}

// A value other than null: a key whose value is null is read as one that is absent.
fn other_than_null(value: Option<Node<'_>>) -> Option<Node<'_>>
    ensures other { IfSome result (λ node. node.item.kind ≢ 0) }
    ensures same { IfSome result (λ node. value.entry ≡ Some node) }
    ensures value { (o : Option Yaml) → FindsNode o value.entry → FindsNode (no_null o) result }
{
    value.filter(|node| !node.is(Kind::Null))
}

// A loop: under `all`, that its closure may be called and what it makes of all entries stayed open.
#[tactic(auto, using(entries::proofs::Walking::places_of))]
fn known_keys(part: Part<'_>) -> bool
    ensures { (es : Entries) → HoldsIn part.entry es → KnownKeys es result }
{
    for pair in part.walk::<Pair>() {
        let Ok(pair) = pair else {
            return false;
        };
        if !is_top_key(&part.bytes[pair.start..pair.end]) {
            return false;
        }
    }
    true
}

// Whether a value is a scalar, by its kind alone: in bytes that are no value a scalar may have no text.
fn is_scalar(value: Option<Node<'_>>) -> bool
    ensures { (o : Option Yaml) → FindsNode o value.entry → AgreesScalar (scalar_text o) result }
{
    let Some(value) = value else {
        return false;
    };
    value.is(Kind::Bool) || value.is(Kind::Int) || value.is(Kind::Str)
}

// Only a string can be it: no text of a boolean or an integer is.
#[tactic(auto, using(crate::proofs::Values::other_schema), unfolding(meaning::specs::Meanings::schema, refusal::specs::Base::bytes))]
fn is_schema(scalar: Scalar<'_>) -> bool
    ensures { result ≡ same (text_of scalar.entry) schema }
{
    let Scalar::Str(text) = scalar else {
        return false;
    };
    same_bytes(text, b"passportsim/scenario@1")
}

// The items of the sequence beside a key among the entries of a part; null has none.
fn sequence_of<'a>(part: Part<'a>, key: &[u8]) -> Option<Part<'a>>
    ensures bytes { IfSome result (λ items. items.bytes.now ≡ part.entry.bytes.now) }
    ensures items { (es : Entries) → HoldsIn part.entry es → AgreesSequence (get key.now es) result }
{
    let Some(value) = value_of(part, key) else {
        return Some(part.encoded().part(0, 0));
    };
    // Its content, which is empty in every encoded value.
    if value.is(Kind::Null) {
        return Some(value.content());
    }
    value.sequence()
}

impl DefaultKey {
    // No `TryFrom`, since it answers an `Option` as its definition does.
    // Word by word: a `match` on longer words goes byte by byte, which left seven goals open.
    #[tactic(auto, unfolding(crate::specs::Contract::default_key, refusal::specs::Base::bytes))]
    fn of(key: &[u8]) -> Option<DefaultKey>
        ensures { result ≡ default_key key.now }
    {
        if same_bytes(key, b"timeout") {
            Some(DefaultKey::Timeout)
        } else if same_bytes(key, b"wall_budget") {
            Some(DefaultKey::WallBudget)
        } else {
            None
        }
    }
}

// Whether its kind is above a string's, which no scalar's is: a collection, or in bytes that are no value a kind that no value has.
fn is_above_str(value: Node<'_>) -> bool
    ensures { result ≡ nat_lt 3 value.entry.item.kind }
{
    value.item.kind > Kind::Str as usize
}

// Two locals: where the arms of a `match` write fields of one struct, the borrow checker does not cover the loop yet.
#[tactic(auto, using(entries::proofs::Walking::places_of))]
fn defaults_in(part: Part<'_>) -> Result<DefaultNodes<'_>, Refusal>
    ensures inside { IfOk result (DefaultsInside part.entry.bytes.now) }
    ensures defaults { (es : Entries) → HoldsIn part.entry es
        → AgreesDefaults (defaults_from no_defaults es) result }
{
    let s = part.encoded();
    let mut timeout = None;
    let mut wall_budget = None;
    for pair in part.walk::<Pair>() {
        let Ok(pair) = pair else {
            return Err(Refusal::UnknownDefault);
        };
        let key = DefaultKey::of(&part.bytes[pair.start..pair.end]).ok_or(Refusal::UnknownDefault)?;
        // The walk has read this header, so it does not happen.
        let value = Node::at(s, pair.end).ok_or(Refusal::UnknownDefault)?;
        match key {
            DefaultKey::Timeout => timeout = Some(value),
            DefaultKey::WallBudget => wall_budget = Some(value),
        }
        if is_above_str(value) {
            return Err(Refusal::DefaultNotScalar);
        }
    }
    Ok(DefaultNodes {
        timeout,
        wall_budget,
    })
}

fn defaults_of(value: Option<Node<'_>>) -> Result<DefaultNodes<'_>, Refusal>
    ensures inside { (s : List ℕ) → NodeOf s value.entry → IfOk result (DefaultsInside s) }
    ensures defaults { (o : Option Yaml) → FindsNode o value.entry → AgreesDefaults (defaults_of o) result }
{
    let Some(value) = other_than_null(value) else {
        return Ok(DefaultNodes::default());
    };
    let part = value.mapping().ok_or(Refusal::DefaultsNotMapping)?;
    defaults_in(part)
}

// The parts among the entries of a part, refused by the rules for each.
fn read_fields(part: Part<'_>) -> Result<TopNodes<'_>, Refusal>
    ensures inside { IfOk result (TopInside part.entry.bytes.now) }
    ensures fields { (y : Yaml) (es : Entries) → Passed y es → HoldsIn part.entry es
        → AgreesTop (top_of y) result }
{
    let name = value_of(part, b"name");
    if !is_scalar(name) {
        return Err(Refusal::NoName);
    }
    let tags = sequence_of(part, b"tags").ok_or(Refusal::TagsNotSequence)?;
    let fail_on = sequence_of(part, b"fail_on").ok_or(Refusal::FailOnNotSequence)?;
    let defaults = defaults_of(value_of(part, b"defaults"))?;
    let steps = sequence_of(part, b"steps").ok_or(Refusal::StepsNotSequence)?;
    Ok(TopNodes {
        name,
        description: value_of(part, b"description"),
        tags,
        image: value_of(part, b"image"),
        setup: value_of(part, b"setup"),
        defaults,
        fail_on,
        steps,
    })
}

/// The parts of a scenario, of the tree at the front; refused by the rules for the mapping, its keys and each part, in their order.
pub fn read_top(s: Encoded<'_>) -> Result<TopNodes<'_>, Refusal>
    ensures inside { IfOk result (TopInside s.entry.bytes.now) }
    ensures top { (y : Yaml) → Ranged y → Stands s.entry.bytes.now 0 (encode y) → AgreesTop (top_of y) result }
{
    let part = document(s).ok_or(Refusal::DocumentNotMapping)?;
    if !known_keys(part) {
        return Err(Refusal::UnknownTopKey);
    }
    let schema = value_of(part, b"schema");
    if !is_scalar(schema) {
        return Err(Refusal::NoSchema);
    }
    // A scalar with no text is another schema.
    let schema = scalar_of(schema).ok_or(Refusal::OtherSchema)?;
    if !is_schema(schema) {
        return Err(Refusal::OtherSchema);
    }
    read_fields(part)
}

// The items of a sequence as they stand.
fn put_sequence(part: Part<'_>, writer: &mut RecordWriter<'_>)
    ensures { Writes writer.old writer.new (items.item 4 (part_of part.entry.bytes.now part.entry.from part.entry.to)) }
{
    let header = writer.open();
    writer.put(&part.bytes[part.from..part.to]);
    writer.close(header, Kind::Seq);
}

// The texts of a sequence's scalars.
fn put_tags(part: Part<'_>, writer: &mut RecordWriter<'_>)
    ensures goes { GoesAtMost (6 + 2 ^ 21 * (part.entry.to - part.entry.from)) writer.old writer.new }
    ensures tags { (ys : trees.Items) → HoldsIn part.entry ys
        → Writes writer.old writer.new (tags_item (texts_of ys)) }
{
    let header = writer.open();
    for item in part.walk::<Item>() {
        // No header, then, since these are no items.
        let Ok(item) = item else {
            return;
        };
        let node = Node {
            bytes: part.bytes,
            item,
        };
        if let Some(scalar) = node.scalar() {
            writer.scalar(scalar);
        }
    }
    writer.close(header, Kind::Seq);
}

fn put_defaults(defaults: DefaultNodes<'_>, writer: &mut RecordWriter<'_>)
    ensures goes { GoesAtMost (2 ^ 22 + 6) writer.old writer.new }
    ensures defaults { (d : meaning.Defaults) → DefaultsStand d defaults.entry → Writes writer.old writer.new (defaults_item d) }
{
    let header = writer.open();
    writer.text_or_null(defaults.timeout);
    writer.text_or_null(defaults.wall_budget);
    writer.close(header, Kind::Defaults);
}

/// The fields of a record before its steps.
pub fn put_top(top: TopNodes<'_>, writer: &mut RecordWriter<'_>)
    ensures goes { GoesAtMost (2 ^ 42) writer.old writer.new }
    ensures fields { (t : Top) → TopStands t top.entry → Writes writer.old writer.new (joined (top_fields t)) }
{
    writer.text_or_empty(top.name);
    writer.text_or_empty(top.description);
    put_tags(top.tags, writer);
    writer.text_or_empty(top.image);
    writer.value_or_null(top.setup);
    put_defaults(top.defaults, writer);
    put_sequence(top.fail_on, writer);
}
