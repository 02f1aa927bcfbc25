// Bytes of encoded items, and parts of them.
ghost use Rattle.std.specs.Prelude.{◌≡◌, ◌-◌, ◌≤◌, ◌^◌, length, take, drop};
ghost use Rattle.item.specs.Encode.{Bytes};

use crate::Walk;

/// Bytes of encoded items, at most `LIMIT` of them, so that each length fits its header. They may be any.
// No equality, here and below: it would call `memcmp`, which no library does.
#[derive(Clone, Copy, Debug)]
pub struct Encoded<'a> {
    pub bytes: &'a [u8],
    pub ghost short: { length bytes.now ≤ 2 ^ 20 },
}

/// The part of such bytes from `from` to `to`, where items or entries stand one behind another. Its places are those of all bytes.
// Which they are is said in each clause (`HoldsIn`, `LiesIn`), and by no ghost field: only the clause knows them.
#[derive(Clone, Copy, Debug)]
pub struct Part<'a> {
    pub bytes: &'a [u8],
    pub from: usize,
    pub to: usize,
    pub ghost inside: { (from ≤ to) × (to ≤ length bytes.now) × (length bytes.now ≤ 2 ^ 20) },
}

// Of a slice that is passed it is known that its numbers are bytes, and of one in a struct it is not.
#[tactic(auto, using(crate::proofs::Exact::bytes_of))]
#[inline(always)]
fn lent(bytes: &[u8]) -> &[u8]
    ensures same { result ≡ bytes.entry }
    ensures bytes { Bytes bytes.now }
{
    bytes
}

impl<'a> Encoded<'a> {
    /// The bytes themselves.
    #[inline(always)]
    pub fn all(self) -> &'a [u8]
        ensures same { result ≡ self.entry.bytes }
        ensures bytes { Bytes self.entry.bytes.now }
    {
        lent(self.bytes)
    }

    /// The part between two places; where these are no places in order, some part.
    #[inline(always)]
    pub fn part(self, from: usize, to: usize) -> Part<'a>
        ensures bytes { result.bytes ≡ self.entry.bytes }
        ensures places { from ≤ to → to ≤ length self.entry.bytes.now → (result.from ≡ from) × (result.to ≡ to) }
    {
        let to = to.min(self.bytes.len());
        Part {
            bytes: self.bytes,
            from: from.min(to),
            to,
        }
    }

    /// The bytes between two places, lent as bytes of their own.
    #[inline(always)]
    pub fn slice(self, from: usize, to: usize) -> Encoded<'a>
        requires { (from ≤ to) × (to ≤ length self.bytes.now) }
        ensures { result.bytes.now ≡ take (to - from) (drop from self.entry.bytes.now) }
    {
        let bytes = self.bytes;
        Encoded {
            bytes: &bytes[from..to],
        }
    }
}

impl<'a> Part<'a> {
    /// All bytes, of which this is a part.
    #[inline(always)]
    pub fn encoded(self) -> Encoded<'a>
        ensures { result.bytes ≡ self.entry.bytes }
    {
        Encoded { bytes: self.bytes }
    }

    /// What stands one behind another in it.
    #[inline(always)]
    pub fn walk<T>(self) -> Walk<'a, T>
        ensures bytes { result.bytes ≡ self.entry.bytes }
        ensures at { result.at ≡ self.entry.from }
        ensures to { result.to ≡ self.entry.to }
    {
        Walk::within(self.bytes, self.from, self.to)
    }
}
