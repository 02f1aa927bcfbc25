// Encoded items side by side, as a sequence, a mapping or a record has them: an entry of a mapping is its key's item, then its value's.
// The bytes may be any; where no items stand there, an answer is only within them.
#![tactic(auto)]

ghost use Rattle.std.specs.Prelude.{◌≡◌, ◌-◌, take, drop};
ghost use Rattle.item.specs.Tree.{Entries, has_key, get};
ghost use Rattle.item.specs.Encode.{encode};
ghost use Rattle.item.specs.Places.{header_at};
ghost use Rattle.entries.specs.Entries.{LiesIn, HoldsIn, pair_at, PairPlaces, Paired, place_of, Finds, FoundInside, span_at, nth_item};

mod filter;
mod sorted;

pub use filter::repeats;
use item::{Broken, Found, Part, Placed, equal_bytes, header_at};

/// An item by its places.
#[derive(Clone, Copy, Debug, PartialEq, Eq)]
pub struct Span {
    pub start: usize,
    pub end: usize,
}

/// An entry: where its key's text begins and ends, which is where its value's item begins; the value's kind and its end.
// Its key is no method: a part between two places is known by computation, what a call answers by an equation, by which the answers of all
// who ask for it would first rewrite.
#[derive(Clone, Copy, Debug, PartialEq, Eq)]
pub struct Pair {
    pub start: usize,
    pub end: usize,
    // Nothing reads it; `pair_at` promises it, as what an entry's two headers say.
    pub kind: usize,
    pub next: usize,
}

impl Placed for Pair {
    ghost reads = { pair_at };

    ghost ends = { λ pair. pair.next };

    #[inline(always)]
    fn read(bytes: &[u8], at: usize) -> Result<Pair, Broken> {
        pair_at(bytes, at)
    }

    #[inline(always)]
    fn end(self) -> usize {
        self.next
    }
}

/// The item that begins at `at`: any place of any bytes.
#[tactic(auto, unfolding(crate::specs::Entries::span_at))]
pub fn item_at(s: &[u8], at: usize) -> Option<Span>
    ensures { result ≡ span_at at (header_at s.now at) }
{
    let item = header_at(s, at).ok()?;
    Some(Span {
        start: at,
        end: item.to,
    })
}

/// The item that stands `skip` items behind the one at `from`.
// A loop, since `nth` of a walk takes sixteen instructions for an item, and this eleven: a walk asks for its end, too.
#[tactic(auto, using(crate::proofs::Counting::nth_on, crate::proofs::Counting::nth_lost), unfolding(crate::specs::Entries::nth_item))]
pub fn nth_item(s: &[u8], from: usize, skip: usize) -> Option<Span>
    ensures { result ≡ nth_item s.now from skip }
{
    let mut at = from;
    for _ in 0..skip {
        at = item_at(s, at)?.end;
    }
    item_at(s, at)
}

/// The entry that begins at `at`: any place of any bytes. Its key may be of any kind.
#[tactic(auto, using(crate::proofs::Walking::pair_places, crate::proofs::Walking::paired), unfolding(crate::specs::Entries::pair_at, crate::specs::Entries::with_key, crate::specs::Entries::with_value))]
pub fn pair_at(s: &[u8], at: usize) -> Result<Pair, Broken>
    ensures value { result ≡ pair_at s.now at }
    ensures pair_places { PairPlaces s.now at result }
    ensures entry { Paired s.now at result }
{
    let key = header_at(s, at)?;
    let value = header_at(s, key.to)?;
    Ok(Pair {
        start: key.from,
        end: key.to,
        kind: value.kind,
        next: value.to,
    })
}

/// The place of a key's value among the entries of a part.
#[tactic(auto, using(crate::proofs::Walking::places_of))]
pub fn find(part: Part<'_>, key: &[u8]) -> Found
    ensures found_inside { FoundInside part.entry.bytes.now result }
    ensures value { (es : Entries) → HoldsIn part.entry es → Finds part.entry.bytes.now (get key.now es) result }
    ensures place { (es : Entries) → LiesIn part.entry es → result ≡ place_of key.now part.entry.from es }
{
    for pair in part.walk::<Pair>() {
        let Ok(pair) = pair else {
            return Found::Nothing;
        };
        // As `same_bytes` has it, but the lengths before the part is lent: most keys differ there, and are spared its bounds.
        let is_as_long = pair.end - pair.start == key.len();
        if is_as_long && equal_bytes(&part.bytes[pair.start..pair.end], key) {
            return Found::At(pair.end);
        }
    }
    Found::Nothing
}

/// Whether a key is one of the entries of a part.
#[tactic(auto, using(crate::proofs::Walking::keys))]
pub fn has_key(part: Part<'_>, key: &[u8]) -> bool
    ensures { (es : Entries) → LiesIn part.entry es → result ≡ has_key key.now es }
{
    matches!(find(part, key), Found::At(_))
}
