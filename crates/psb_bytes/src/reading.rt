ghost use Rattle.std.specs.Prelude.{◌≡◌, ◌≤◌, ◌↔◌, ◌++◌, ◌∷◌, length, take, drop, IsOk, IfOk, OnOk, OnErr};
ghost use Rattle.psb_bytes.specs.Numbers.{u16_bytes, u32_bytes, u64_bytes, u16_of, u32_of, u64_of};

use crate::{Digest, Short};
use byteorder::{BigEndian, ByteOrder};
use std::marker::Model;

/// Bytes that are read in turn. Contracts see it as the list of the bytes that are left.
///
/// Each `take` answers the front and moves on by its width, or answers `Short` where fewer bytes
/// are left, and stays. Numbers are read high byte first.
#[derive(Drop)]
pub struct Cursor<'a> {
    rest: &'a [u8],
}

impl<'a> Model for Cursor<'a> {
    ghost use Rattle.std.specs.Prelude.{List, ℕ};

    ghost Value = { List ℕ };

    ghost view = { λ c. c.rest.now };
}

impl<'a> Cursor<'a> {
    pub fn new(bytes: &'a [u8]) -> Cursor<'a>
        ensures { result ≡ bytes.now }
    {
        Cursor { rest: bytes }
    }

    /// How many bytes are left.
    pub fn left(&self) -> usize
        ensures { result ≡ length self.now }
    {
        self.rest.len()
    }

    /// The bytes that are left, lent from the source.
    pub fn rest(&self) -> &'a [u8]
        ensures { result.now ≡ self.now }
    {
        self.rest
    }

    /// The next `n` bytes, lent from the source.
    pub fn take_slice(&mut self, n: usize) -> Result<&'a [u8], Short>
        ensures enough { IsOk result ↔ (n ≤ length self.old) }
        ensures value { IfOk result (λ s. s.now ≡ take n self.old) }
        ensures moved { OnOk result (self.new ≡ drop n self.old) }
        ensures stays { OnErr result (self.new ≡ self.old) }
    {
        if self.rest.len() < n {
            return Err(Short);
        }
        let (front, rest) = self.rest.split_at(n);
        self.rest = rest;
        Ok(front)
    }

    /// The next `N` bytes.
    pub fn take_array<const N: usize>(&mut self) -> Result<[u8; N], Short>
        ensures enough { IsOk result ↔ (N ≤ length self.old) }
        ensures front { IfOk result (λ a. self.old ≡ a ++ self.new) }
        ensures moved { OnOk result (self.new ≡ drop N self.old) }
        ensures stays { OnErr result (self.new ≡ self.old) }
    {
        let mut array = [0; N];
        array.copy_from_slice(self.take_slice(N)?);
        Ok(array)
    }

    pub fn take_u8(&mut self) -> Result<u8, Short>
        ensures enough { IsOk result ↔ (1 ≤ length self.old) }
        ensures front { IfOk result (λ n. self.old ≡ n ∷ self.new) }
        ensures moved { OnOk result (self.new ≡ drop 1 self.old) }
        ensures stays { OnErr result (self.new ≡ self.old) }
    {
        let bytes: [u8; 1] = self.take_array()?;
        Ok(bytes[0])
    }

    pub fn take_u16(&mut self) -> Result<u16, Short>
        ensures enough { IsOk result ↔ (2 ≤ length self.old) }
        ensures value { IfOk result (λ n. n ≡ u16_of (take 2 self.old)) }
        ensures front { IfOk result (λ n. self.old ≡ u16_bytes n ++ self.new) }
        ensures moved { OnOk result (self.new ≡ drop 2 self.old) }
        ensures stays { OnErr result (self.new ≡ self.old) }
    {
        let front: [u8; 2] = self.take_array()?;
        Ok(BigEndian::read_u16(&front))
    }

    pub fn take_u32(&mut self) -> Result<u32, Short>
        ensures enough { IsOk result ↔ (4 ≤ length self.old) }
        ensures value { IfOk result (λ n. n ≡ u32_of (take 4 self.old)) }
        ensures front { IfOk result (λ n. self.old ≡ u32_bytes n ++ self.new) }
        ensures moved { OnOk result (self.new ≡ drop 4 self.old) }
        ensures stays { OnErr result (self.new ≡ self.old) }
    {
        let front: [u8; 4] = self.take_array()?;
        Ok(BigEndian::read_u32(&front))
    }

    pub fn take_u64(&mut self) -> Result<u64, Short>
        ensures enough { IsOk result ↔ (8 ≤ length self.old) }
        ensures value { IfOk result (λ n. n ≡ u64_of (take 8 self.old)) }
        ensures front { IfOk result (λ n. self.old ≡ u64_bytes n ++ self.new) }
        ensures moved { OnOk result (self.new ≡ drop 8 self.old) }
        ensures stays { OnErr result (self.new ≡ self.old) }
    {
        let front: [u8; 8] = self.take_array()?;
        Ok(BigEndian::read_u64(&front))
    }

    pub fn take_digest(&mut self) -> Result<Digest, Short>
        ensures enough { IsOk result ↔ (32 ≤ length self.old) }
        ensures front { IfOk result (λ d. self.old ≡ d ++ self.new) }
        ensures moved { OnOk result (self.new ≡ drop 32 self.old) }
        ensures stays { OnErr result (self.new ≡ self.old) }
    {
        Ok(Digest(self.take_array()?))
    }
}
