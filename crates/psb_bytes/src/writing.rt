ghost use Rattle.std.specs.Prelude.{◌≡◌, ◌≤◌, ◌+◌, ◌++◌, ◌∷◌, [], length, IfOk};
ghost use Rattle.psb_bytes.specs.Numbers.{u16_bytes, u32_bytes, u64_bytes};

use crate::Memory;
use byteorder::{BigEndian, ByteOrder};
use std::alloc::Global;
use std::marker::Model;

/// Bytes that are written in turn, into room that was taken before. Contracts see it as the bytes
/// so far and how many it holds at most.
///
/// Each `put` appends, and takes no memory. Numbers are written high byte first.
#[derive(Drop)]
pub struct Page {
    bytes: Vec<u8>,
    room: usize,
}

impl Model for Page {
    ghost use Rattle.std.specs.Prelude.{◌≤◌, vec_capacity};
    ghost use Rattle.psb_bytes.specs.Pages.{Written};

    ghost Value = { Written };

    ghost view = { λ p. record { bytes = p.bytes.items; room = p.room } };

    ghost invariant = { λ p. p.room ≤ vec_capacity p.bytes };
}

impl Page {
    /// An empty page for up to `n` bytes.
    pub fn with_room(alloc: Global, n: usize) -> Result<Page, Memory>
        ensures { IfOk result (λ p. p ≡ record { bytes = []; room = n }) }
    {
        let bytes = Vec::with_capacity(alloc, n)?;
        Ok(Page { bytes, room: n })
    }

    pub fn put_slice(&mut self, bytes: &[u8])
        requires { length self.old.bytes + length bytes.now ≤ self.old.room }
        ensures { self.new ≡ record self.old { bytes = self.old.bytes ++ bytes.now } }
    {
        self.bytes.extend_from_slice(bytes).unwrap();
    }

    pub fn put_u8(&mut self, value: u8)
        requires { length self.old.bytes + 1 ≤ self.old.room }
        ensures { self.new ≡ record self.old { bytes = self.old.bytes ++ value ∷ [] } }
    {
        self.put_slice(&[value]);
    }

    pub fn put_u16(&mut self, value: u16)
        requires { length self.old.bytes + 2 ≤ self.old.room }
        ensures { self.new ≡ record self.old { bytes = self.old.bytes ++ u16_bytes value } }
    {
        let mut bytes = [0; 2];
        BigEndian::write_u16(&mut bytes, value);
        self.put_slice(&bytes);
    }

    pub fn put_u32(&mut self, value: u32)
        requires { length self.old.bytes + 4 ≤ self.old.room }
        ensures { self.new ≡ record self.old { bytes = self.old.bytes ++ u32_bytes value } }
    {
        let mut bytes = [0; 4];
        BigEndian::write_u32(&mut bytes, value);
        self.put_slice(&bytes);
    }

    pub fn put_u64(&mut self, value: u64)
        requires { length self.old.bytes + 8 ≤ self.old.room }
        ensures { self.new ≡ record self.old { bytes = self.old.bytes ++ u64_bytes value } }
    {
        let mut bytes = [0; 8];
        BigEndian::write_u64(&mut bytes, value);
        self.put_slice(&bytes);
    }

    /// The bytes. Takes no memory.
    pub fn done(self) -> Vec<u8>
        ensures { result.items ≡ self.bytes }
    {
        let Page { bytes, room: _ } = self;
        bytes
    }
}
