// Whether a key stands twice among entries. Bits of the keys that were passed tell most keys to be new; where all bits of a key are there
// already, the exact search decides. Where too many keys share their bits, as keys can be made to, the keys are put in order instead.
ghost use Rattle.std.specs.Prelude.{◌≡◌, ◌<◌, ◌^◌, IfOk, length};
ghost use Rattle.item.specs.Tree.{Entries};
ghost use Rattle.entries.specs.Entries.{LiesIn, key_twice};
ghost use Rattle.entries.specs.Contract.{hash_of, bit, bits_of, Marked, twice_in, of_class};

use crate::sorted::sorted_repeats;
use crate::{Pair, has_key, nth_item};
use item::{HEADER, Part};

// As many words as hold the bits of a class.
const WORDS: usize = 2048;

// Too many keys share their bits for a few searches to tell.
#[derive(Clone, Copy)]
struct Crowded;

// Equal keys have equal hashes; the factor is FNV's.
#[tactic(auto, using(crate::proofs::Twice::hash_on, crate::proofs::Twice::hash_end), unfolding(crate::specs::Contract::hash_of))]
fn hash(key: &[u8]) -> usize
    ensures { result ≡ hash_of key.now }
{
    let mut hash: u32 = 0;
    for &byte in key {
        hash = hash
            .wrapping_add(u32::from(byte) + 1)
            .wrapping_mul(16777619);
    }
    hash as usize
}

// One bit of a word, by the last six bits of a number.
#[tactic(auto, unfolding(crate::specs::Contract::bit))]
fn bit(n: usize) -> usize
    ensures { result ≡ bit n }
{
    1 << (n % 64)
}

// Up to three bits of a word.
#[tactic(auto, unfolding(crate::specs::Contract::bits_of))]
fn bits_of(hash: usize) -> usize
    ensures { result ≡ bits_of hash }
{
    bit(hash >> 11) | bit(hash >> 17) | bit(hash >> 23)
}

// Whether the bits of a hash were there; now they are.
fn mark(seen: &mut [usize; WORDS], hash: usize) -> bool
    ensures { Marked seen.old seen.new hash result }
{
    let index = hash % WORDS;
    let bits = bits_of(hash);
    let old = seen[index];
    seen[index] = old | bits;
    old & bits == bits
}

// Whether a key of one class stands twice; the classes are the numbers up to `last`. A search that finds nothing costs a walk, and so
// there are few of them.
#[tactic(auto, using(crate::proofs::Walking::places_of))]
fn class_repeats(
    part: Part<'_>,
    class: usize,
    last: usize,
    seen: &mut [usize; WORDS],
) -> Result<bool, Crowded>
    ensures seen_len { length seen.new ≡ 2 ^ 11 }
    ensures told { (es : Entries) → LiesIn part.entry es → IfOk result (λ told. told ≡ twice_in (of_class class last) es) }
{
    seen.fill(0);
    let mut spare: usize = 32;
    for pair in part.walk::<Pair>() {
        let Ok(pair) = pair else {
            return Ok(false);
        };
        let key = &part.bytes[pair.start..pair.end];
        let hash = hash(key);
        let is_of_class = (hash >> 28) & last == class;
        if is_of_class && mark(seen, hash) {
            // The entries before this one end where its key's header begins.
            let before = part.encoded().part(part.from, pair.start - HEADER);
            if has_key(before, key) {
                return Ok(true);
            }
            spare = spare.checked_sub(1).ok_or(Crowded)?;
        }
    }
    Ok(false)
}

// The classes one after the other. Kept out of its caller's frame, so that its bits and the keys that are put in order never lie on the
// stack together; both are gone before another mapping is read, so that depth costs none.
#[inline(never)]
#[tactic(auto, using(crate::proofs::Twice::twice_whole, crate::proofs::Twice::classes_done))]
fn filter_repeats(part: Part<'_>, last: usize) -> Result<bool, Crowded>
    requires { last < 2 ^ 4 }
    ensures { (es : Entries) → LiesIn part.entry es → IfOk result (λ told. told ≡ key_twice es) }
{
    let mut seen = [0usize; WORDS];
    for class in 0..=last {
        if class_repeats(part, class, last, &mut seen)? {
            return Ok(true);
        }
    }
    Ok(false)
}

// Each key is searched for among those behind it.
#[tactic(auto, using(crate::proofs::Walking::places_of))]
fn few_repeat(part: Part<'_>) -> bool
    ensures { (es : Entries) → LiesIn part.entry es → result ≡ key_twice es }
{
    for pair in part.walk::<Pair>() {
        let Ok(pair) = pair else {
            return false;
        };
        let others = part.encoded().part(pair.next, part.to);
        if has_key(others, &part.bytes[pair.start..pair.end]) {
            return true;
        }
    }
    false
}

// Whether more than so many items stand in a part; each has a header. No contract: the answer picks among ways that all tell
// the same, by how long each takes.
fn has_more(part: Part<'_>, items: usize) -> bool {
    (part.to - part.from) / HEADER > items
        && nth_item(part.bytes, part.from, items).is_some_and(|item| item.start < part.to)
}

fn many_repeat(part: Part<'_>, last: usize) -> bool
    requires { last < 2 ^ 4 }
    ensures { (es : Entries) → LiesIn part.entry es → result ≡ key_twice es }
{
    match filter_repeats(part, last) {
        Ok(is_twice) => is_twice,
        Err(Crowded) => sorted_repeats(part),
    }
}

// The last class of many entries: a class has some 4,096 keys, lest its bits be crowded; three bits each of so many fill a tenth.
fn last_class(part: Part<'_>) -> usize
    ensures { result < 2 ^ 4 }
{
    if has_more(part, 65536) {
        return 15;
    }
    if has_more(part, 16384) {
        return 7;
    }
    if has_more(part, 8192) {
        return 1;
    }
    0
}

/// Whether a key stands twice among the entries of a part.
// Few are quickest compared with each other, and clearing the bits pays from some 24 entries on.
pub fn repeats(part: Part<'_>) -> bool
    ensures { (es : Entries) → LiesIn part.entry es → result ≡ key_twice es }
{
    if part.to - part.from <= 512 || !has_more(part, 48) {
        return few_repeat(part);
    }
    many_repeat(part, last_class(part))
}
