ghost use Rattle.std.specs.Prelude.{◌≡◌, string_bytes, IfOk};

use crate::{Digest, Object, Ref};
use std::alloc::{AllocError, AllocFailed, Global};
use std::marker::Model;
use thiserror::Error;

/// Memory ran out.
#[derive(Clone, Copy, PartialEq, Eq, Debug, Error)]
#[error("no memory")]
pub struct Memory;

impl From<AllocError> for Memory {
    ghost from_gives = { λ _ e. e ≡ record {} };

    fn from(_error: AllocError) -> Memory {
        Memory
    }
}

impl<T: Drop> From<AllocFailed<T>> for Memory {
    ghost from_gives = { λ _ e. e ≡ record {} };

    fn from(_error: AllocFailed<T>) -> Memory {
        Memory
    }
}

/// Fewer bytes are left than were asked for.
#[derive(Clone, Copy, PartialEq, Eq, Debug, Error)]
#[error("too few bytes are left")]
pub struct Short;

/// A vector that contracts see as the list of its items.
#[derive(Drop)]
pub struct Items<T> {
    items: Vec<T>,
}

impl<T> Model for Items<T> {
    ghost use Rattle.std.specs.Prelude.{List};

    ghost Value = { List T };

    ghost view = { λ l. l.items.items };
}

impl<T> Items<T> {
    /// Takes no memory.
    pub fn from_vec(items: Vec<T>) -> Items<T>
        ensures { result ≡ items.items }
    {
        Items { items }
    }

    /// Takes no memory.
    pub fn into_vec(self) -> Vec<T>
        ensures { result.items ≡ self }
    {
        let Items { items } = self;
        items
    }

    pub fn as_slice(&self) -> &[T]
        ensures { result.now ≡ self.now }
    {
        self.items.as_slice()
    }
}

impl<T: Copy> Items<T> {
    /// A copy of the items.
    pub fn copy(alloc: Global, items: &[T]) -> Result<Items<T>, Memory>
        ensures { IfOk result (λ l. l ≡ items.now) }
    {
        Ok(Items::from_vec(Vec::from_slice(alloc, items)?))
    }
}

/// A slot, and the 512 bytes of the claim that stands in it.
#[derive(Clone, Copy, PartialEq, Eq, Debug)]
pub struct SlotClaim {
    pub slot: u32,
    pub bytes: [u8; 512],
}

pub type Bytes = Items<u8>;

pub type SlotList = Items<u32>;

pub type PlaceList = Items<u16>;

pub type ClaimList = Items<SlotClaim>;

pub type ObjectList = Items<Object>;

pub type DigestList = Items<Digest>;

pub type RefList = Items<Ref>;

/// A text, which contracts see as the list of its bytes in UTF-8.
#[derive(Drop)]
pub struct Text {
    string: String,
}

impl Model for Text {
    ghost use Rattle.std.specs.Prelude.{List, ℕ, string_bytes};

    ghost Value = { List ℕ };

    ghost view = { λ t. string_bytes t.string };
}

impl Text {
    /// Takes no memory.
    pub fn from_string(string: String) -> Text
        ensures { result ≡ string_bytes string }
    {
        Text { string }
    }

    /// A copy of the text.
    pub fn copy(alloc: Global, text: &str) -> Result<Text, Memory>
        ensures { IfOk result (λ t. t ≡ text.now) }
    {
        Ok(Text::from_string(String::from_str(alloc, text)?))
    }

    pub fn as_str(&self) -> &str
        ensures { result.now ≡ self.now }
    {
        self.string.as_str()
    }
}
