// Items or entries one behind another, by their places.
ghost use Rattle.std.specs.Prelude.{ℕ, ◌≡◌, ◌<◌, List, Result, IfOk, length};
ghost use Rattle.item.specs.declared.Broken.{Broken};

use crate::{Broken, Item, header_at};
use std::marker::PhantomData;

/// What is read where it begins in some bytes, and ends there.
pub trait Placed: Copy {
    ghost reads: { List ℕ → ℕ → Result Self Broken };

    ghost ends: { Self → ℕ };

    /// What begins at `at`, whatever the bytes are.
    fn read(bytes: &[u8], at: usize) -> Result<Self, Broken>
        ensures value { result ≡ Self.reads bytes.now at }
        ensures ahead { IfOk result (λ placed. at < Self.ends placed) };

    /// Where it ends.
    fn end(self) -> usize
        ensures { result ≡ Self.ends self };
}

impl Placed for Item {
    ghost use Rattle.item.specs.Places.{header_at};

    ghost reads = { header_at };

    ghost ends = { λ item. item.to };

    #[inline(always)]
    fn read(bytes: &[u8], at: usize) -> Result<Item, Broken> {
        header_at(bytes, at)
    }

    #[inline(always)]
    fn end(self) -> usize {
        self.to
    }
}

/// A walk over a part of some bytes, from `at` up to `to`. Where nothing can be read that is told, and it is the end.
// No equality: it would call `memcmp`, which no library does.
#[derive(Clone, Copy, Debug)]
pub struct Walk<'a, T> {
    pub bytes: &'a [u8],
    pub at: usize,
    pub to: usize,
    of: PhantomData<T>,
}

/// A walk over items.
pub type Items<'a> = Walk<'a, Item>;

impl<'a, T> Walk<'a, T> {
    /// Over all bytes.
    pub fn new(bytes: &'a [u8]) -> Walk<'a, T>
        ensures bytes { result.bytes ≡ bytes.entry }
        ensures at { result.at ≡ 0 }
        ensures to { result.to ≡ length bytes.now }
    {
        Walk::within(bytes, 0, bytes.len())
    }

    /// Over a part of them.
    pub fn within(bytes: &'a [u8], from: usize, to: usize) -> Walk<'a, T>
        ensures bytes { result.bytes ≡ bytes.entry }
        ensures at { result.at ≡ from }
        ensures to { result.to ≡ to }
    {
        Walk {
            bytes,
            at: from,
            to,
            of: PhantomData,
        }
    }
}

impl<'a, T: Placed> Iterator for Walk<'a, T> {
    ghost use Rattle.item.specs.Walk.{Gives, bytes_left};

    type Item = Result<T, Broken>;

    ghost next_gives = { Gives T.reads T.ends };

    ghost remaining = { bytes_left };

    #[inline(always)]
    fn next(&mut self) -> Option<Result<T, Broken>> {
        if self.at >= self.to {
            return None;
        }
        match T::read(self.bytes, self.at) {
            Ok(placed) => {
                self.at = placed.end();
                Some(Ok(placed))
            }
            Err(broken) => {
                self.at = self.to;
                Some(Err(broken))
            }
        }
    }
}
