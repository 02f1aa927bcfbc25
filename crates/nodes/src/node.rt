// A value where it stands in its bytes.
ghost use Rattle.std.specs.Prelude.{◌≤◌, ◌^◌, length};

use crate::{Scalar, integer_at};
use item::{Encoded, Found, HEADER, Integer, Item, Kind, Part, header_at};

/// A value in encoded bytes: its item, and the bytes in which that stands.
// Written out where an item is known: a constructor would require what `inside` says.
#[derive(Clone, Copy, Debug)]
pub struct Node<'a> {
    pub bytes: &'a [u8],
    pub item: Item,
    pub ghost inside: { (6 ≤ item.from) × (item.from ≤ item.to) × (item.to ≤ length bytes.now) × (length bytes.now ≤ 2 ^ 20) },
}

impl<'a> Node<'a> {
    ghost use Rattle.std.specs.Prelude.{◌≡◌, ◌+◌, ◌-◌, IfSome, IsSomeAnd, eqb, take, drop};
    ghost use Rattle.std.proofs.Math.Option.{Option};
    ghost use Rattle.item.specs.Kinds.{number_of};
    ghost use Rattle.item.specs.Tree.{Yaml, Ranged};
    ghost use Rattle.item.specs.Encode.{encode};
    ghost use Rattle.entries.specs.Entries.{Stands, Finds};
    ghost use Rattle.nodes.specs.Contract.{IsNode, FindsNode, AgreesMapping, AgreesItems, AgreesInteger, AgreesScalar, text_of};

    /// What begins at a place of any bytes.
    // `Ranged` and `Stands` go side by side in the clause, as wherever a value stands in bytes: one name for both would be a pair that each proof
    // takes apart.
    pub fn at(s: Encoded<'a>, place: usize) -> Option<Node<'a>>
        ensures bytes { IfSome result (λ node. node.bytes ≡ s.entry.bytes) }
        ensures place { IfSome result (λ node. node.item.from ≡ place + 6) }
        ensures value { (y : Yaml) → Ranged y → Stands s.entry.bytes.now place (encode y) → IsSomeAnd result (IsNode y) }
    {
        let item = header_at(s.bytes, place).ok()?;
        Some(Node {
            bytes: s.bytes,
            item,
        })
    }

    /// A value that was looked for.
    pub fn found(s: Encoded<'a>, found: Found) -> Option<Node<'a>>
        ensures bytes { IfSome result (λ node. node.bytes ≡ s.entry.bytes) }
        ensures value { (o : Option Yaml) → Finds s.entry.bytes.now o found → FindsNode o result }
    {
        match found {
            Found::At(place) => Node::at(s, place),
            Found::Nothing => None,
        }
    }

    /// Whether its item has this kind.
    #[inline]
    pub fn is(self, kind: Kind) -> bool
        ensures { result ≡ eqb self.entry.item.kind (number_of kind) }
    {
        self.item.is(kind)
    }

    /// Its content, as the part where items or entries may stand.
    pub fn content(self) -> Part<'a>
        ensures bytes { result.bytes ≡ self.entry.bytes }
        ensures from { result.from ≡ self.entry.item.from }
        ensures to { result.to ≡ self.entry.item.to }
    {
        Part {
            bytes: self.bytes,
            from: self.item.from,
            to: self.item.to,
        }
    }

    /// The bytes of its item, header and content.
    pub fn whole(self) -> &'a [u8]
        ensures { result.now ≡ take (self.entry.item.to - (self.entry.item.from - 6)) (drop (self.entry.item.from - 6) self.entry.bytes.now) }
    {
        &self.bytes[self.item.from - HEADER..self.item.to]
    }

    /// Where its entries stand, if it is a mapping.
    pub fn mapping(self) -> Option<Part<'a>>
        ensures bytes { IfSome result (λ part. part.bytes ≡ self.entry.bytes) }
        ensures from { IfSome result (λ part. part.from ≡ self.entry.item.from) }
        ensures to { IfSome result (λ part. part.to ≡ self.entry.item.to) }
        ensures entries { (y : Yaml) → IsNode y self.entry → AgreesMapping y result }
    {
        self.is(Kind::Map).then_some(self.content())
    }

    /// Where its items stand, if it is a sequence.
    // Not one method with `mapping`: that promises entries, this one items.
    pub fn sequence(self) -> Option<Part<'a>>
        ensures bytes { IfSome result (λ part. part.bytes ≡ self.entry.bytes) }
        ensures from { IfSome result (λ part. part.from ≡ self.entry.item.from) }
        ensures to { IfSome result (λ part. part.to ≡ self.entry.item.to) }
        ensures items { (y : Yaml) → IsNode y self.entry → AgreesItems y result }
    {
        self.is(Kind::Seq).then_some(self.content())
    }

    /// The integer that it is, if it is one.
    pub fn integer(self) -> Option<Integer>
        ensures { (y : Yaml) → IsNode y self.entry → AgreesInteger y result }
    {
        let Item { from, to, .. } = self.item;
        let is_integer = self.is(Kind::Int);
        if !is_integer || to - from < 8 {
            return None;
        }
        Some(integer_at(self.bytes, from))
    }

    /// The scalar that it is, which has a text; null and collections have none.
    pub fn scalar(self) -> Option<Scalar<'a>>
        ensures short { IfSome result (λ scalar. length (text_of scalar) ≤ 2 ^ 20) }
        ensures value { (y : Yaml) → IsNode y self.entry → AgreesScalar y result }
    {
        let Item { from, to, .. } = self.item;
        let Ok(kind) = Kind::try_from(self.item.kind) else {
            return None;
        };
        match kind {
            Kind::Bool if from < to => Some(Scalar::Bool(self.bytes[from] != 0)),
            Kind::Int => Some(Scalar::Int(self.integer()?)),
            Kind::Str => Some(Scalar::Str(&self.bytes[from..to])),
            _ => None,
        }
    }
}
