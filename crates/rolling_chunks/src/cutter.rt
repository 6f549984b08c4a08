ghost use Rattle.std.specs.Prelude.{◌≡◌, ℕ, ◌+◌, ◌-◌, ◌<◌, ◌≤◌, ◌%◌, true, false, ◌&&◌, ◌||◌, ◌==◌, [], length, take, nat_le, IfOk};
ghost use Rattle.rolling_chunks.specs.Cuts.{longest, is_anchor};
ghost use Rattle.rolling_chunks.specs.Pushes.{progress, IsPush, IsFinish, Runs};
ghost use Rattle.rolling_chunks.specs.Steps.{ends_with};

use crate::anchors::{ANCHOR_DIVISOR, ANCHOR_RESIDUE, anchor_after};
use crate::fingerprints::{WINDOW, Window};
use psb_bytes::{LONGEST_CHUNK, Memory};
use std::alloc::Global;
use std::marker::Model;
use std::mem;

/// A chunk that ends before its text does has at least so many bytes.
const SHORTEST: u32 = 2_048;

/// How many bytes were pushed, and whether the last of them ended a chunk.
#[derive(Clone, Copy, PartialEq, Eq, Debug)]
pub struct Run {
    pub len: usize,
    pub ends: bool,
}

/// Cuts a text that is pushed byte by byte or in runs of bytes. Contracts see what the rule needs of
/// the bytes since it was new: the last 48 of them, and how many came after the last cut.
#[derive(Drop)]
pub struct Cutter {
    window: Window,
    len: u32,
}

impl Model for Cutter {
    ghost use Rattle.std.specs.Prelude.{◌<◌};
    ghost use Rattle.rolling_chunks.specs.Pushes.{Progress};
    ghost use Rattle.rolling_chunks.specs.Cuts.{longest};

    ghost Value = { Progress };

    ghost view = { λ c. record { window = c.window; len = c.len } };

    ghost invariant = { λ c. c.len < longest };
}

impl Cutter {
    pub fn new(alloc: Global) -> Result<Cutter, Memory>
        ensures { IfOk result (λ c. c ≡ progress longest []) }
    {
        let window = Window::new(alloc)?;
        Ok(Cutter { window, len: 0 })
    }

    /// Answers the length of the chunk that this byte ends, and None where it ends none as far as
    /// can be told before the text ends. Takes no memory.
    pub fn push(&mut self, byte: u8) -> Option<u32>
        ensures { IsPush longest self.old byte result self.new }
    {
        let fingerprint = self.window.push(byte);
        self.len += 1;
        if !ends_chunk(self.len, fingerprint) {
            return None;
        }
        Some(mem::take(&mut self.len))
    }

    /// Pushes bytes up to the first that ends a chunk, or all of them where none does. Takes no
    /// memory.
    pub fn push_to_cut(&mut self, bytes: &[u8]) -> Run
        ensures within { result.len ≤ length bytes.now }
        ensures some { result.ends ≡ true → 1 ≤ result.len }
        ensures all { result.ends ≡ false → result.len ≡ length bytes.now }
        ensures runs { Runs longest self.old (take result.len bytes.now) result.ends self.new }
    {
        // The windows of the places among the first 48 begin in front of the bytes.
        let front = self.push_each(&bytes[..bytes.len().min(WINDOW)]);
        if front.ends || bytes.len() <= WINDOW {
            return front;
        }
        let run = run_on(self.len, bytes);
        self.window.push_all(&bytes[WINDOW..run.len]);
        self.len = if run.ends {
            0
        } else {
            self.len + (run.len - WINDOW) as u32
        };
        run
    }

    // The same, byte by byte.
    fn push_each(&mut self, bytes: &[u8]) -> Run
        ensures within { result.len ≤ length bytes.now }
        ensures some { result.ends ≡ true → 1 ≤ result.len }
        ensures all { result.ends ≡ false → result.len ≡ length bytes.now }
        ensures runs { Runs longest self.old (take result.len bytes.now) result.ends self.new }
    {
        for (i, byte) in bytes.iter().enumerate() {
            if let Some(_) = self.push(*byte) {
                return Run {
                    len: i + 1,
                    ends: true,
                };
            }
        }
        Run {
            len: bytes.len(),
            ends: false,
        }
    }

    /// Answers the length of the last chunk where bytes are left over, and None where there are
    /// none. The cutter is as new. Takes no memory.
    pub fn finish(&mut self) -> Option<u32>
        ensures { IsFinish longest self.old result self.new }
    {
        self.window.clear();
        let len = mem::take(&mut self.len);
        if len > 0 { Some(len) } else { None }
    }
}

// Whether a chunk of this length ends at a place with this fingerprint, wherever the text ends.
fn ends_chunk(len: u32, fingerprint: u64) -> bool
    ensures { result ≡ (nat_le SHORTEST len && ((len == LONGEST_CHUNK) || (fingerprint % ANCHOR_DIVISOR == ANCHOR_RESIDUE))) }
{
    len >= SHORTEST && (len == LONGEST_CHUNK || fingerprint % ANCHOR_DIVISOR == ANCHOR_RESIDUE)
}

// The run of these bytes of which 48 were pushed and ended no chunk: with them it has this length.
fn run_on(len: u32, bytes: &[u8]) -> Run
    requires more { 48 < length bytes.now }
    requires short { len < longest }
    ensures after { 48 < result.len }
    ensures within { result.len ≤ length bytes.now }
    ensures all { result.ends ≡ false → result.len ≡ length bytes.now }
    ensures before { (k : ℕ) → 48 < k → k < result.len → ends_with longest (len + (k - 48)) (is_anchor bytes.now k) ≡ false }
    ensures ends { ends_with longest (len + (result.len - 48)) (is_anchor bytes.now result.len) ≡ result.ends }
    ensures short { result.ends ≡ false → len + (result.len - 48) < longest }
{
    let from = WINDOW + (SHORTEST - 1).saturating_sub(len) as usize;
    let longest = WINDOW + (LONGEST_CHUNK - len) as usize;
    let to = bytes.len().min(longest);
    match anchor_after(bytes, from, to) {
        Some(len) => Run { len, ends: true },
        None => Run {
            len: to,
            ends: to == longest,
        },
    }
}
