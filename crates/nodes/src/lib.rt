// What is read of a tree where it stands in its bytes, and what is written of it: scalars as key text, values as they are.
#![tactic(auto)]

ghost use Rattle.std.specs.Prelude.{◌≡◌, ◌≤◌, ◌+◌, ◌^◌, IfSome, length, take, drop};
ghost use Rattle.std.proofs.Math.Option.{Option};
ghost use Rattle.item.specs.Tree.{Yaml, Entries, get};
ghost use Rattle.item.specs.Encode.{number, signed};
ghost use Rattle.item.specs.Decode.{untwos};
ghost use Rattle.entries.specs.Entries.{HoldsIn};
ghost use Rattle.nodes.specs.Writing.{Stored};
ghost use Rattle.nodes.specs.Contract.{FindsNode, text_of, told_of, scalar_text};

mod node;
mod output;

use entries::find;
use item::{Integer, Part, copy};
pub use node::Node;
pub use output::RecordWriter;

/// A value that has a text: a boolean, an integer, or a string.
// No `PartialEq`: it would compare strings by `memcmp`, which libraries do not call.
#[derive(Clone, Copy, Debug)]
pub enum Scalar<'a> {
    Bool(bool),
    Int(Integer),
    Str(&'a [u8]),
}

/// The value beside a key among the entries of a part.
pub fn value_of<'a>(part: Part<'a>, key: &[u8]) -> Option<Node<'a>>
    ensures bytes { IfSome result (λ node. node.bytes ≡ part.entry.bytes) }
    ensures value { (es : Entries) → HoldsIn part.entry es → FindsNode (get key.now es) result }
{
    Node::found(part.encoded(), find(part, key))
}

/// The scalar that a value is, if it was found.
pub fn scalar_of(node: Option<Node<'_>>) -> Option<Scalar<'_>>
    ensures short { IfSome result (λ scalar. length (text_of scalar) ≤ 2 ^ 20) }
    ensures text { (o : Option Yaml) → FindsNode o node.entry → told_of result ≡ scalar_text o }
{
    node?.scalar()
}

/// The integer whose eight bytes stand at a place, the lowest first.
pub fn integer_at(s: &[u8], at: usize) -> Integer
    requires { at + 8 ≤ length s.now }
    ensures { signed result.negative result.magnitude ≡ untwos (number (take 8 (drop at s.now))) }
{
    let mut bytes = [0; 8];
    bytes.copy_from_slice(&s[at..at + 8]);
    Integer::from(i64::from_le_bytes(bytes))
}

/// Stores bytes at a place of an output, however long that is, if they end within it, and tells where they end, as far as numbers go.
// A function of its own beside `RecordWriter::put`: an output may be longer than a `RecordWriter` holds.
pub fn put(out: &mut [u8], at: usize, bytes: &[u8]) -> usize
    ensures { Stored out.old out.new at bytes.now result }
{
    let end = at.saturating_add(bytes.len());
    if end <= out.len() {
        copy(out, at, bytes);
    }
    end
}
