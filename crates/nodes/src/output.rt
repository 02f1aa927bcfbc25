// The record as it is written: stored as far as it fits, and counted beyond that, so that one walk serves for both.
ghost use Rattle.std.specs.Prelude.{◌≡◌, ◌+◌, ◌≤◌, ◌<◌, ◌^◌, length};
ghost use Rattle.item.specs.Tree.{null, bool};
ghost use Rattle.item.specs.Encode.{item, encode, signed};
ghost use Rattle.number.specs.Integers.{int_text};
ghost use Rattle.scalar.specs.Scalars.{bool_text};

use crate::{Node, Scalar, put, scalar_of};
use item::{HEADER, Integer, Kind, put_header};
use number::{int_len, put_int_text};

/// A lent output, and where what was written ends, which may be beyond it.
// The bound is what counts of any output; `close_as` needs one, since a header has four bytes for a length.
#[derive(Drop)]
pub struct RecordWriter<'a> {
    pub out: &'a mut [u8],
    pub end: usize,
    pub ghost counted: { length out.now ≤ 2 ^ 20 },
}

impl<'a> RecordWriter<'a> {
    /// Writes from the front of `out`.
    pub fn new(out: &'a mut [u8]) -> RecordWriter<'a>
        requires { length out.old ≤ 2 ^ 20 }
        ensures same_reference { result.out.ghost_name ≡ out.entry.ghost_name }
        ensures kept { result.out.now ≡ out.old }
        ensures empty { result.end ≡ 0 }
    {
        RecordWriter { out, end: 0 }
    }
}

impl RecordWriter<'_> {
    ghost use Rattle.std.specs.Prelude.{ℕ, List};
    ghost use Rattle.std.proofs.Math.Option.{Option};
    ghost use Rattle.item.specs.Tree.{Yaml};
    ghost use Rattle.item.specs.Kinds.{number_of};
    ghost use Rattle.meaning.specs.Record.{text_item, optional};
    ghost use Rattle.nodes.specs.Writing.{GoesAtMost, Writes, Opens, Closes};
    ghost use Rattle.nodes.specs.Contract.{text_of, ReadsFound, scalar_text, text_or_empty, or_null};

    /// Puts bytes behind the end, as they are.
    pub fn put(&mut self, bytes: &[u8])
        ensures { Writes self.old self.new bytes.now }
    {
        self.end = put(self.out, self.end, bytes);
    }

    /// Leaves a header free, which `close` fills in, and tells where it is.
    pub fn open(&mut self) -> usize
        ensures { Opens self.old self.new result }
    {
        let header = self.end;
        self.end = header.saturating_add(HEADER);
        header
    }

    /// Fills in the header of an item, if the item fits: its content is all that stands behind it.
    // Beside `close`, since a header can have any 16 bits as a kind: `Kind` alone asks more of callers.
    pub fn close_as(&mut self, header: usize, kind: usize)
        requires item { self.old.end ≤ length self.old.out.now → header + 6 ≤ self.old.end }
        requires kind { kind < 2 ^ 16 }
        ensures { Closes self.old self.new header kind }
    {
        if self.end <= self.out.len() {
            put_header(self.out, header, kind, self.end - header - HEADER);
        }
    }

    /// The same, of a kind with a name.
    pub fn close(&mut self, header: usize, kind: Kind)
        requires { self.old.end ≤ length self.old.out.now → header + 6 ≤ self.old.end }
        ensures { Closes self.old self.new header (number_of kind) }
    {
        self.close_as(header, kind as usize);
    }

    /// Puts the item that stands for nothing.
    pub fn null(&mut self)
        ensures { Writes self.old self.new (encode null) }
    {
        let header = self.open();
        self.close(header, Kind::Null);
    }

    /// Puts the item of a boolean, which has one byte.
    pub fn bool(&mut self, value: bool)
        ensures { Writes self.old self.new (encode (bool value)) }
    {
        let header = self.open();
        self.put(&[u8::from(value)]);
        self.close(header, Kind::Bool);
    }

    /// Puts the item of a text, whose bytes may be any.
    pub fn text(&mut self, text: &[u8])
        ensures { Writes self.old self.new (item 3 text.now) }
    {
        let header = self.open();
        self.put(text);
        self.close(header, Kind::Str);
    }

    fn digits(&mut self, n: Integer)
        ensures { Writes self.old self.new (int_text (signed n.negative n.magnitude)) }
    {
        let end = self.end.saturating_add(int_len(n));
        if end <= self.out.len() {
            put_int_text(self.out, self.end, n);
        }
        self.end = end;
    }

    fn int_text(&mut self, n: Integer)
        ensures { Writes self.old self.new (item 3 (int_text (signed n.negative n.magnitude))) }
    {
        let header = self.open();
        self.digits(n);
        self.close(header, Kind::Str);
    }

    #[tactic(auto, unfolding(scalar::specs::Scalars::bool_text, refusal::specs::Base::bytes))]
    fn bool_text(&mut self, value: bool)
        ensures { Writes self.old self.new (item 3 (bool_text value)) }
    {
        self.text(if value { b"true" } else { b"false" });
    }

    /// A scalar as a text.
    pub fn scalar(&mut self, scalar: Scalar<'_>)
        ensures { Writes self.old self.new (item 3 (text_of scalar.entry)) }
    {
        match scalar {
            Scalar::Bool(value) => self.bool_text(value),
            Scalar::Int(n) => self.int_text(n),
            Scalar::Str(text) => self.text(text),
        }
    }

    /// The text of a value that was looked for, or an empty one where there is no scalar.
    pub fn text_or_empty(&mut self, node: Option<Node<'_>>)
        ensures goes { GoesAtMost (2 ^ 21) self.old self.new }
        ensures text { (t : List ℕ) → ReadsFound text_or_empty node.entry t → Writes self.old self.new (text_item t) }
    {
        match scalar_of(node) {
            Some(scalar) => self.scalar(scalar),
            None => self.text(b""),
        }
    }

    /// The same, or null where there is no scalar.
    // Not one method with `text_or_empty`: they differ in what stands for no text alone, and a closure for that would need a contract of its
    // own.
    pub fn text_or_null(&mut self, node: Option<Node<'_>>)
        ensures goes { GoesAtMost (2 ^ 21) self.old self.new }
        ensures text { (t : Option (List ℕ)) → ReadsFound scalar_text node.entry t → Writes self.old self.new (encode (optional t)) }
    {
        match scalar_of(node) {
            Some(scalar) => self.scalar(scalar),
            None => self.null(),
        }
    }

    /// The item of a value that was looked for, as it stands, or null.
    pub fn value_or_null(&mut self, node: Option<Node<'_>>)
        ensures goes { GoesAtMost (2 ^ 21) self.old self.new }
        ensures value { (v : Yaml) → ReadsFound or_null node.entry v → Writes self.old self.new (encode v) }
    {
        match node {
            Some(node) => self.put(node.whole()),
            None => self.null(),
        }
    }
}
