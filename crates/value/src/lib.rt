// Values as a record holds them: items of kinds 0 to 5 that are trees within the rules of document 01, section 5. The content of
// an item is lent as a slice of its own; `levels` collections may be open in it, one in another.
#![tactic(auto)]

ghost use Rattle.std.specs.Prelude.{◌≡◌, ◌-◌, ◌≤◌, ◌&&◌, eqb, length, take, drop};
ghost use Rattle.utf8.specs.Utf8.{is_utf8};
ghost use Rattle.value.specs.Tree.{tree, accepts, accepts_items, accepts_entries};
ghost use Rattle.value.specs.Walks.{Walks};

use entries::repeats;
use item::{Encoded, Item, Items, Kind, header_at};
use utf8::is_utf8;

/// Whether an item is a text: a string, and its content UTF-8.
pub fn is_text(s: &[u8], item: Item) -> bool
    requires { (item.from ≤ item.to) × (item.to ≤ length s.now) }
    ensures { result ≡ eqb item.kind 3 && is_utf8 (take (item.to - item.from) (drop item.from s.now)) }
{
    item.is(Kind::Str) && is_utf8(&s[item.from..item.to])
}

// One byte, 0 or 1.
#[tactic(auto, using(crate::proofs::Contents::flag_byte, crate::proofs::Contents::flag_size))]
fn flag(content: &[u8]) -> bool
    ensures { result ≡ accepts 0 1 content.now }
{
    matches!(content, [0 | 1])
}

// Whether this is the content of a value of this kind: its kind and its content apart, as the definition has them. Put into the walks that
// ask it, so that a scalar costs no call. `all` tells the proof that the content is bytes, of which any eight are an integer of 64 bits.
#[inline(always)]
#[cycle(values)]
#[tactic(auto, using(crate::proofs::Contents::null_content, crate::proofs::Contents::flag_content, crate::proofs::Contents::int_content, crate::proofs::Contents::string_content, crate::proofs::Contents::sequence_content, crate::proofs::Contents::mapping_content, crate::proofs::Contents::too_deep), unfolding(item::specs::Kinds::number_of))]
fn value(kind: usize, content: Encoded<'_>, levels: usize) -> bool
    ensures { result ≡ accepts levels kind content.entry.bytes.now }
{
    match Kind::try_from(kind) {
        Ok(Kind::Null) => content.bytes.is_empty(),
        Ok(Kind::Bool) => flag(content.bytes),
        Ok(Kind::Int) => content.all().len() == 8,
        Ok(Kind::Str) => is_utf8(content.bytes),
        Ok(Kind::Seq) => levels > 0 && items(content, levels - 1),
        Ok(Kind::Map) => levels > 0 && entries(content, levels - 1),
        _ => false,
    }
}

// A loop: under `all` its two closures join the cycle, and each wants a measure and a proof of its own.
#[cycle(values)]
#[tactic(auto, using(item::proofs::Turns::placed))]
fn items(s: Encoded<'_>, levels: usize) -> bool
    ensures { result ≡ accepts_items levels s.entry.bytes.now }
{
    for item in Items::new(s.bytes) {
        let Ok(item) = item else {
            return false;
        };
        if !value(item.kind, s.slice(item.from, item.to), levels) {
            return false;
        }
    }
    true
}

// Keys and values in turn, two items a turn, as a `Pair` does not tell its key's kind. Whether a key stands twice is judged once, when all
// are read.
#[cycle(values)]
#[tactic(auto, using(item::proofs::Turns::placed))]
fn entries(s: Encoded<'_>, levels: usize) -> bool
    ensures { result ≡ accepts_entries levels s.entry.bytes.now }
{
    let mut walk = Items::new(s.bytes);
    while let Some(key) = walk.next() {
        let Ok(key) = key else {
            return false;
        };
        if !is_text(s.bytes, key) {
            return false;
        }
        let Some(Ok(item)) = walk.next() else {
            return false;
        };
        if !value(item.kind, s.slice(item.from, item.to), levels) {
            return false;
        }
    }
    let whole = s.all();
    !repeats(s.part(0, whole.len()))
}

/// The end of the value that begins at `at`: any place. At most `levels` collections may be open in it, one in another.
#[tactic(auto, using(crate::proofs::Headers::item_there, crate::proofs::Headers::no_item_there, crate::proofs::Invariants::no_value, crate::proofs::Invariants::value_ends))]
pub fn value_at(s: Encoded<'_>, at: usize, levels: usize) -> Option<usize>
    ensures { Walks (tree levels) s.entry.bytes.now at result }
{
    let item = header_at(s.bytes, at).ok()?;
    value(item.kind, s.slice(item.from, item.to), levels).then_some(item.to)
}
