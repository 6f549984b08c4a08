//! The chunks of a file, read one after another.
ghost use Rattle.std.specs.Prelude.{◌≡◌, ◌≤◌, ◌<◌, ◌^◌, ◌+◌, ◌++◌, ◌∷◌, ℕ, List, [], true, false, not, ◌&&◌, length, drop, if◌then◌else◌, IfOk, OnOk, OnErr, Ok};
ghost use Rattle.psb_bytes.specs.Units.{longest_chunk};
ghost use Rattle.psb_station.specs.Calls.{Rose};

use crate::gathering::ChunkBuffer;
use crate::unread::Unread;
use psb_bytes::Memory;
use psb_station::{Failed, Folder};
use std::alloc::Global;

/// Reads one file of a folder piece by piece, and gives its chunks one after another. It holds one
/// piece and one chunk, never the file.
#[derive(Drop)]
pub struct ChunkReader {
    chunk: ChunkBuffer,
    unread: Unread,
    at: u64,
    ended: bool,
}

impl ChunkReader {
    ghost use Rattle.snapshots.specs.declared.unread.TheConstants.{PIECE_BYTES};
    ghost use Rattle.snapshots.specs.Gathering.{Takes};
    ghost use Rattle.snapshots.specs.Reading.{IsBehind, ReadsBehind, Reads, Refills};

    /// A reader at the start of a file. Takes all the memory that it ever needs.
    pub fn new(alloc: Global) -> Result<ChunkReader, Memory>
        ensures behind { IfOk result (λ r. IsBehind r [] []) }
        ensures goes_on { IfOk result (λ r. r.ended ≡ false) }
    {
        let chunk = ChunkBuffer::new(alloc)?;
        let unread = Unread::new(alloc)?;
        Ok(ChunkReader {
            chunk,
            unread,
            at: 0,
            ended: false,
        })
    }

    /// Goes to the start of another file. Takes no memory.
    pub fn restart(&mut self)
        ensures behind { IsBehind self.new [] [] }
        ensures goes_on { self.new.ended ≡ false }
    {
        self.chunk.restart();
        self.unread.clear();
        self.at = 0;
        self.ended = false;
    }

    /// Reads the next piece where none is left, and answers whether bytes are there.
    fn refill<F: Folder>(&mut self, folder: &mut F, path: &str) -> Result<bool, Failed>
        requires { self.old.unread ≡ [] → self.old.at < 2 ^ 63 }
        ensures chunk { self.new.chunk ≡ self.old.chunk }
        ensures ended { self.new.ended ≡ self.old.ended }
        ensures at { OnErr result (self.new.at ≡ self.old.at) }
        ensures refills { IfOk result (λ some. Refills path.now (F.view folder.old) (F.view folder.new) self.old.unread self.old.at self.new.unread self.new.at some) }
        ensures reads { Reads path.now (F.view folder.old) (F.view folder.new) }
        ensures cause { OnErr result (Rose (F.view folder.old).folder_faults (F.view folder.new).folder_faults) }
        ensures steady { OnOk result ((F.view folder.new).folder_faults ≡ (F.view folder.old).folder_faults) }
    {
        if !self.unread.is_empty() {
            return Ok(true);
        }
        let count = self.unread.read(folder, path, self.at)?;
        self.at += count as u64;
        Ok(count != 0)
    }

    /// Takes bytes of the piece up to the end of the chunk, and answers whether it ended.
    fn gather(&mut self) -> bool
        ensures whole { result ≡ self.new.chunk.whole }
        ensures taken { (count : ℕ) × Takes self.old.chunk self.old.unread count self.new.chunk × (self.new.unread ≡ drop count self.old.unread) }
        ensures short { length self.new.chunk.bytes ≤ longest_chunk }
        ensures at { self.new.at ≡ self.old.at }
        ensures ended { self.new.ended ≡ self.old.ended }
    {
        let count = self.chunk.take(self.unread.as_slice());
        self.unread.pass(count);
        self.chunk.is_whole()
    }

    /// Reads the next chunk, and answers whether there is one. Takes no memory. Once it answered that
    /// there is none it reads no more. After an error it is at no known place of the file: restart it.
    pub fn next<F: Folder>(&mut self, folder: &mut F, path: &str) -> Result<bool, Failed>
        requires { self.old.at < 2 ^ 62 }
        ensures next { IfOk result (λ some. (text : List ℕ) (chunks : List (List ℕ)) → IsBehind self.old text chunks
            → (more : List ℕ) × IsBehind self.new (text ++ more) (if some then chunks ++ self.new.chunk.bytes ∷ [] else chunks)
            × ReadsBehind path.now (F.view folder.new) text more (self.new.ended && not self.old.ended)) }
        ensures end { result ≡ Ok false → self.new.ended ≡ true }
        ensures some { IfOk result (λ some. some ≡ true → 1 ≤ length self.new.chunk.bytes) }
        ensures short { IfOk result (λ some. some ≡ true → length self.new.chunk.bytes ≤ longest_chunk) }
        ensures near { self.new.at ≤ self.old.at + longest_chunk + PIECE_BYTES }
        ensures ended { self.old.ended ≡ true → result ≡ Ok false }
        ensures idle { self.old.ended ≡ true → F.view folder.new ≡ F.view folder.old }
        ensures reads { Reads path.now (F.view folder.old) (F.view folder.new) }
        ensures cause { OnErr result (Rose (F.view folder.old).folder_faults (F.view folder.new).folder_faults) }
        ensures steady { OnOk result ((F.view folder.new).folder_faults ≡ (F.view folder.old).folder_faults) }
    {
        if self.ended {
            return Ok(false);
        }
        while self.refill(folder, path)? {
            if self.gather() {
                return Ok(true);
            }
        }
        self.ended = true;
        Ok(self.chunk.finish())
    }

    /// The chunk that was read last.
    pub fn chunk(&self) -> &[u8]
        ensures { result.now ≡ self.now.chunk.bytes }
    {
        self.chunk.bytes()
    }
}
