// Whether a key stands twice among entries, whatever their keys are: the first keys are put in order, each key behind them is looked up
// there, and so on with those behind.
ghost use Rattle.std.specs.Prelude.{◌<◌, ◌^◌, ◌+◌, ◌≡◌, ◌≤◌, IfSome, length};
ghost use Rattle.std.specs.Ordering.{nat_cmp};
ghost use Rattle.std.specs.Cmp.Lexicographic.{slice_cmp};
ghost use Rattle.item.specs.Tree.{Entries};
ghost use Rattle.entries.specs.Entries.{LiesIn, key_twice};
ghost use Rattle.entries.specs.Contract.{key_cmp, Inside, InOrder, Inserted, AgreesChunk};

use crate::Pair;
use item::Part;
use std::cmp::Ordering;

// As many keys as are put in order at once.
const KEYS: usize = 2048;

// Where a key stands in the bytes; small, since many are kept.
#[derive(Clone, Copy)]
struct KeyPlace {
    start: u32,
    end: u32,
}

// Keys of some bytes in their order, by the first `count` of the places.
#[derive(Drop)]
struct Run<'a> {
    bytes: &'a [u8],
    places: [KeyPlace; KEYS],
    count: usize,
    ghost in_order: { InOrder bytes.now places count },
}

// A loop, since on short keys the order of slices takes nearly twice as long, and that of their iterators twice as many instructions.
fn compare_bytes(a: &[u8], b: &[u8]) -> Ordering
    requires { length a.now ≡ length b.now }
    ensures { result ≡ slice_cmp nat_cmp a.now b.now }
{
    for (x, y) in a.iter().zip(b) {
        let order = x.cmp(y);
        if order.is_ne() {
            return order;
        }
    }
    Ordering::Equal
}

// The shorter is below, so that most are told by their lengths. Asked first whether these are equal: `then_with` makes their order before,
// which takes two instructions more for each key.
fn compare(a: &[u8], b: &[u8]) -> Ordering
    ensures { result ≡ key_cmp a.now b.now }
{
    if a.len() != b.len() {
        return a.len().cmp(&b.len());
    }
    compare_bytes(a, b)
}

// A place put in among the first of some. A loop, since libraries call no `memmove`, as `copy_within` and `rotate_right` may; and by index,
// since each place is read where its neighbour is written, and no iterator lends both.
fn insert(places: &mut [KeyPlace; KEYS], count: usize, index: usize, place: KeyPlace)
    requires { (index ≤ count) × (count < 2 ^ 11) }
    ensures { Inserted places.old places.new count index place }
{
    for i in (index..count).rev() {
        places[i + 1] = places[i];
    }
    places[index] = place;
}

impl Run<'_> {
    ghost use Rattle.entries.specs.Contract.{key_of, key_in, Gap, Located};

    fn clear(&mut self)
        ensures bytes { self.new.bytes.now ≡ self.old.bytes.now }
        ensures empty { self.new.count ≡ 0 }
    {
        self.count = 0;
    }

    #[tactic(auto, unfolding(crate::specs::Contract::key_of))]
    fn key(&self, index: usize) -> &[u8]
        requires { index < self.now.count }
        ensures { result.now ≡ key_in self.now.bytes.now self.now.places index }
    {
        let place = self.places[index];
        &self.bytes[place.start as usize..place.end as usize]
    }

    // Where a key goes among these; or where it is one of them. A loop, since std's `binary_search_by` compares once more, and goes on
    // where the key is found, which takes more instructions on keys that share a word.
    fn place_of(&self, key: &[u8]) -> Result<usize, usize>
        ensures { Located self.now.bytes.now self.now.places self.now.count key.now result }
    {
        let mut low = 0;
        let mut high = self.count;
        while low < high {
            let middle = (low + high) / 2;
            match compare(self.key(middle), key) {
                Ordering::Less => low = middle + 1,
                Ordering::Equal => return Ok(middle),
                Ordering::Greater => high = middle,
            }
        }
        Err(low)
    }

    fn insert(&mut self, index: usize, place: KeyPlace)
        requires room { self.old.count < 2 ^ 11 }
        requires inside { Inside self.old.bytes.now place }
        requires gap { Gap self.old.bytes.now self.old.places self.old.count (key_of self.old.bytes.now place) index }
        ensures bytes { self.new.bytes.now ≡ self.old.bytes.now }
        ensures count { self.new.count ≡ self.old.count + 1 }
        ensures places { Inserted self.old.places self.new.places self.old.count index place }
    {
        insert(&mut self.places, self.count, index, place);
        self.count += 1;
    }
}

// The first entries are put in order, and those behind them are looked up: where the entries behind the first begin, unless a key stands
// twice.
#[tactic(auto, using(crate::proofs::Walking::places_of))]
fn chunk_repeats(part: Part<'_>, run: &mut Run<'_>) -> Option<usize>
    requires some { (part.from < part.to) }
    requires same_bytes { run.old.bytes.now ≡ part.bytes.now }
    ensures bytes { run.new.bytes.now ≡ part.entry.bytes.now }
    ensures goes_on { IfSome result (λ behind. part.entry.from < behind) }
    ensures agrees_chunk { (es : Entries) → LiesIn part.entry es → AgreesChunk part.entry.bytes.now part.entry.to es result }
{
    run.clear();
    let mut behind = part.from;
    for pair in part.walk::<Pair>() {
        let Ok(pair) = pair else {
            return Some(part.to);
        };
        let key = &part.bytes[pair.start..pair.end];
        let Err(index) = run.place_of(key) else {
            return None;
        };
        if run.count < KEYS {
            let place = KeyPlace {
                start: pair.start as u32,
                end: pair.end as u32,
            };
            run.insert(index, place);
            behind = pair.next;
        }
    }
    Some(behind)
}

// Kept out of its caller's frame, so that its keys and the caller's bits never lie on the stack together. A `while`, as it goes on where a
// chunk ends.
#[inline(never)]
#[tactic(auto, using(crate::proofs::Twice::judged_all))]
pub(crate) fn sorted_repeats(part: Part<'_>) -> bool
    ensures { (es : Entries) → LiesIn part.entry es → result ≡ key_twice es }
{
    let mut run = Run {
        bytes: part.bytes,
        places: [KeyPlace { start: 0, end: 0 }; KEYS],
        count: 0,
    };
    let mut at = part.from;
    while at < part.to {
        let others = part.encoded().part(at, part.to);
        let Some(behind) = chunk_repeats(others, &mut run) else {
            return true;
        };
        at = behind;
    }
    false
}
