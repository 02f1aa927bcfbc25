// A lent output, of which the front is used: readers write items into it as they read.
#![tactic(auto)]

ghost use Rattle.std.specs.Prelude.{◌≡◌, ◌+◌, ◌-◌, ◌≤◌, ◌<◌, ◌^◌, [], ◌∷◌, length, take, replicate, MatchResult};
ghost use Rattle.item.specs.Tree.{null, bool, int, str};
ghost use Rattle.item.specs.Encode.{head, signed, encode};
ghost use Rattle.number.specs.Integers.{int_text};

use item::{Encoded, HEADER, Integer, Kind};
use number::{int_len, put_int_text};
use refusal::Refusal;

/// The output, all of which counts, and how many of its bytes are used.
#[derive(Drop)]
pub struct Writer<'a> {
    pub out: &'a mut [u8],
    pub used: usize,
    pub ghost within: { used ≤ length out.now },
    pub ghost counted: { length out.now ≤ 2 ^ 20 },
}

impl<'a> Writer<'a> {
    /// A writer into all of an output, none of which is used yet.
    pub fn new(out: &'a mut [u8]) -> Writer<'a>
        requires { length out.old ≤ 2 ^ 20 }
        ensures same_reference { result.out.ghost_name ≡ out.entry.ghost_name }
        ensures kept { result.out.now ≡ out.old }
        ensures empty { result.used ≡ 0 }
    {
        Writer { out, used: 0 }
    }
}

impl Writer<'_> {
    ghost use Rattle.item.specs.Kinds.{number_of};
    ghost use Rattle.writer.specs.Writing.{room_of, Appends, Puts, Begins, Fills, CutsBack};

    /// How many bytes are used.
    pub fn used(&self) -> usize
        ensures { result ≡ self.now.used }
    {
        self.used
    }

    /// The bytes that are used.
    pub fn written(&self) -> Encoded<'_>
        ensures { result.bytes.now ≡ take self.now.used self.now.out.now }
    {
        Encoded {
            bytes: &self.out[..self.used],
        }
    }

    // Whether so many bytes more fit.
    fn reserve(&self, bytes: usize) -> Result<(), Refusal>
        ensures { MatchResult result (λ _. bytes ≤ room_of self.now)
            (λ e. (room_of self.now < bytes) × (e ≡ Refusal.WorkTooShort)) }
    {
        if bytes <= self.out.len() - self.used {
            Ok(())
        } else {
            Err(Refusal::WorkTooShort)
        }
    }

    /// Puts bytes as they are, without a header.
    pub fn put(&mut self, bytes: &[u8])
        requires { length bytes.now ≤ room_of self.old }
        ensures { Appends self.old self.new bytes.now }
    {
        let at = self.used;
        item::copy(self.out, at, bytes);
        // Not `+=`: the bytes just written could have changed the field, which would be read again.
        self.used = at + bytes.len();
    }

    /// Puts one byte.
    pub fn push(&mut self, byte: u8)
        requires { self.old.used < length self.old.out.now }
        ensures { Appends self.old self.new (byte ∷ []) }
    {
        let at = self.used;
        self.out[at] = byte;
        // As in `put`.
        self.used = at + 1;
    }

    /// Puts so many times the same byte.
    pub fn fill(&mut self, byte: u8, count: usize)
        requires { count ≤ room_of self.old }
        ensures { Appends self.old self.new (replicate count byte) }
    {
        let at = self.used;
        self.out[at..at + count].fill(byte);
        // As in `put`.
        self.used = at + count;
    }

    /// Puts an integer's decimal digits, with a minus before them if it is below 0.
    pub fn digits(&mut self, n: Integer)
        requires { length (int_text (signed n.negative n.magnitude)) ≤ room_of self.old }
        ensures { Appends self.old self.new (int_text (signed n.negative n.magnitude)) }
    {
        put_int_text(self.out, self.used, n);
        self.used += int_len(n);
    }

    /// The header of an item whose content, of so many bytes, is still to be put. Nothing is put where both together have no room.
    #[tactic(auto, using(crate::proofs::Sizes::sizes))]
    pub fn header(&mut self, kind: Kind, size: usize) -> Result<(), Refusal>
        requires { size ≤ 2 ^ 63 }
        ensures { MatchResult result (λ _. Appends self.old self.new (head (number_of kind) size) × (size ≤ room_of self.new))
            (λ e. (room_of self.old < 6 + size) × (e ≡ Refusal.WorkTooShort) × (self.new ≡ self.old)) }
    {
        self.reserve(HEADER + size)?;
        item::put_header(self.out, self.used, kind as usize, size);
        self.used += HEADER;
        Ok(())
    }

    /// Puts an item, here and in the next three: its header and its content. Nothing is put where they have no room.
    #[tactic(auto, using(crate::proofs::Sizes::sizes))]
    pub fn null(&mut self) -> Result<(), Refusal>
        ensures { Puts self.old self.new (encode null) result }
    {
        self.reserve(HEADER)?;
        item::put_null(self.out, self.used);
        self.used += HEADER;
        Ok(())
    }

    /// Its content is one byte, 0 or 1.
    #[tactic(auto, using(crate::proofs::Sizes::sizes))]
    pub fn bool(&mut self, value: bool) -> Result<(), Refusal>
        ensures { Puts self.old self.new (encode (bool value)) result }
    {
        self.reserve(HEADER + 1)?;
        item::put_bool(self.out, self.used, value);
        self.used += HEADER + 1;
        Ok(())
    }

    /// Its content is eight bytes, little-endian, in two's complement.
    #[tactic(auto, using(crate::proofs::Sizes::sizes))]
    pub fn int(&mut self, n: Integer) -> Result<(), Refusal>
        ensures { Puts self.old self.new (encode (int (signed n.negative n.magnitude))) result }
    {
        self.reserve(HEADER + 8)?;
        item::put_int(self.out, self.used, n);
        self.used += HEADER + 8;
        Ok(())
    }

    /// Its content is the bytes themselves.
    #[tactic(auto, using(crate::proofs::Sizes::sizes))]
    pub fn string(&mut self, bytes: &[u8]) -> Result<(), Refusal>
        ensures { Puts self.old self.new (encode (str bytes.now)) result }
    {
        self.reserve(HEADER + bytes.len())?;
        item::put_string(self.out, self.used, bytes);
        self.used += HEADER + bytes.len();
        Ok(())
    }

    /// Takes the six bytes of a header, which `end` fills in, and tells where they are.
    pub fn begin(&mut self) -> Result<usize, Refusal>
        ensures { MatchResult result (λ header. Begins self.old self.new header)
            (λ e. (room_of self.old < 6) × (e ≡ Refusal.WorkTooShort) × (self.new ≡ self.old)) }
    {
        self.reserve(HEADER)?;
        let header = self.used;
        self.used += HEADER;
        Ok(header)
    }

    /// Fills in the header of an item whose content is all that stands behind it.
    pub fn end(&mut self, header: usize, kind: Kind)
        requires { header + 6 ≤ self.old.used }
        ensures { Fills self.old self.new header (head (number_of kind) (self.old.used - (header + 6))) }
    {
        item::put_header(self.out, header, kind as usize, self.used - header - HEADER);
    }

    /// Takes back what stands behind so many bytes.
    pub fn truncate(&mut self, used: usize)
        requires { used ≤ self.old.used }
        ensures { CutsBack self.old self.new used }
    {
        self.used = used;
    }
}
