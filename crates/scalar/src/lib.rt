// One line's scalars, and the search for a key's end. A reader is lent the part of a line that it reads, as `s`, and the writer into which
// it writes what it reads.
#![tactic(auto)]

mod key;
mod plain_text;
mod quoted_text;

pub use key::key_end;
pub use plain_text::{ends_colon, null_at, plain};
pub use quoted_text::quoted;

/// A value stands for itself, or in a key's place, where its text is what counts.
#[derive(Clone, Copy, Debug, PartialEq, Eq)]
pub enum Role {
    AsValue,
    AsKey,
}

/// Where plain text ends: at the line's end, or, inside a collection, before the byte that ends an item.
#[derive(Clone, Copy, Debug, PartialEq, Eq)]
pub enum Stops {
    AtLineEnd,
    InFlow,
}

/// The two quotes.
#[derive(Clone, Copy, Debug, PartialEq, Eq)]
pub enum Quote {
    Single,
    Double,
}

/// What was read: the place in the line behind it, and whether the value can be a key.
#[derive(Clone, Copy, Debug, PartialEq, Eq)]
pub struct Parsed {
    pub next: usize,
    pub key: bool,
}
