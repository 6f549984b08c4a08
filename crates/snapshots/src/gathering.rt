//! A chunk that is put together of the bytes of a file.
ghost use Rattle.std.specs.Prelude.{◌≡◌, ◌≤◌, false, length, IfOk};
ghost use Rattle.rolling_chunks.specs.Cuts.{longest};
ghost use Rattle.snapshots.specs.Gathering.{begun, nothing_gathered, Takes, Finishes};

use psb_bytes::{LONGEST_CHUNK, Memory};
use rolling_chunks::Cutter;
use std::alloc::Global;
use std::marker::Model;

/// The bytes of a text since its last cut, and the cutter that cuts it. Where a chunk ended with the
/// last byte, its bytes stay until the next byte comes.
#[derive(Drop)]
pub(crate) struct ChunkBuffer {
    cutter: Cutter,
    bytes: Vec<u8>,
    whole: bool,
}

impl Model for ChunkBuffer {
    ghost use Rattle.std.specs.Prelude.{vec_capacity};
    ghost use Rattle.snapshots.specs.Gathering.{Gathered, IsGathered};

    ghost Value = { Gathered };

    ghost view = { λ b. record { cutter = b.cutter; bytes = b.bytes.items; whole = b.whole } };

    ghost invariant = { λ b. IsGathered (record { cutter = b.cutter; bytes = b.bytes.items; whole = b.whole }) (vec_capacity b.bytes) };
}

impl ChunkBuffer {
    /// At the start of a text. Takes all the memory that it ever needs.
    pub(crate) fn new(alloc: Global) -> Result<ChunkBuffer, Memory>
        ensures { IfOk result (λ b. b ≡ nothing_gathered) }
    {
        let cutter = Cutter::new(alloc)?;
        let bytes = Vec::with_capacity(alloc, LONGEST_CHUNK as usize)?;
        Ok(ChunkBuffer {
            cutter,
            bytes,
            whole: false,
        })
    }

    /// Goes to the start of another text. Takes no memory.
    pub(crate) fn restart(&mut self)
        ensures { self.new ≡ nothing_gathered }
    {
        let _ = self.cutter.finish();
        self.bytes.clear();
        self.whole = false;
    }

    /// Lets a whole chunk go.
    fn begin(&mut self)
        ensures { self.new ≡ record self.old { bytes = begun self.old; whole = false } }
    {
        if self.whole {
            self.bytes.clear();
            self.whole = false;
        }
    }

    /// Takes the next bytes of the text up to the first that ends a chunk, or all of them where none
    /// does, and answers how many. Takes no memory.
    pub(crate) fn take(&mut self, bytes: &[u8]) -> usize
        ensures takes { Takes self.old bytes.now result self.new }
        ensures short { length self.new.bytes ≤ longest }
    {
        self.begin();
        let run = self.cutter.push_to_cut(bytes);
        // There is room for the longest chunk.
        let _ = self.bytes.extend_from_slice(&bytes[..run.len]);
        self.whole = run.ends;
        run.len
    }

    /// Ends the text: the bytes that are left over are its last chunk. Answers whether there are any.
    /// Takes no memory.
    pub(crate) fn finish(&mut self) -> bool
        ensures finishes { Finishes self.old result self.new }
        ensures short { length self.new.bytes ≤ longest }
    {
        self.begin();
        self.whole = self.cutter.finish().is_some();
        self.whole
    }

    /// Whether a chunk ended with the last byte.
    pub(crate) fn is_whole(&self) -> bool
        ensures { result ≡ self.now.whole }
    {
        self.whole
    }

    pub(crate) fn bytes(&self) -> &[u8]
        ensures { result.now ≡ self.now.bytes }
    {
        self.bytes.as_slice()
    }
}
