//! A piece of a file, of which bytes are taken from the front.
ghost use Rattle.std.specs.Prelude.{◌≡◌, ◌↔◌, ◌≤◌, [], length, drop, IfOk, IfSome, OnOk, OnErr, IsTrue};
ghost use Rattle.psb_station.specs.Calls.{Rose};
ghost use Rattle.psb_station.specs.Folder.{Reading, Tells_content, Tries};
ghost use Rattle.snapshots.specs.Pieces.{ReadsNext};

use psb_bytes::Memory;
use psb_station::{Failed, Folder};
use std::alloc::Global;
use std::marker::Model;

/// How many bytes of a file are read at once.
const PIECE_BYTES: usize = 65_536;

/// The bytes of a piece that were not taken yet. Contracts see them alone.
#[derive(Drop)]
pub(crate) struct Unread {
    bytes: Vec<u8>,
    begin: usize,
    end: usize,
}

impl Model for Unread {
    ghost use Rattle.std.specs.Prelude.{List, ℕ};
    ghost use Rattle.snapshots.specs.Pieces.{bytes_between, IsPlaced};

    ghost Value = { List ℕ };

    ghost view = { λ u. bytes_between u.bytes.items u.begin u.end };

    ghost invariant = { λ u. IsPlaced u.bytes.items u.begin u.end };
}

impl Unread {
    /// None yet. Takes all the memory that it ever needs.
    pub(crate) fn new(alloc: Global) -> Result<Unread, Memory>
        ensures { IfOk result (λ u. u ≡ []) }
    {
        let bytes = vec![in alloc; 0u8; PIECE_BYTES]?;
        Ok(Unread {
            bytes,
            begin: 0,
            end: 0,
        })
    }

    /// Lets them go.
    pub(crate) fn clear(&mut self)
        ensures { self.new ≡ [] }
    {
        self.begin = 0;
        self.end = 0;
    }

    pub(crate) fn is_empty(&self) -> bool
        ensures { IsTrue result ↔ (self.now ≡ []) }
    {
        self.begin == self.end
    }

    pub(crate) fn as_slice(&self) -> &[u8]
        ensures { result.now ≡ self.now }
    {
        &self.bytes[self.begin..self.end]
    }

    /// Takes so many from the front.
    pub(crate) fn pass(&mut self, count: usize)
        requires { count ≤ length self.old }
        ensures { self.new ≡ drop count self.old }
    {
        self.begin += count;
    }

    /// Reads the next bytes of a file from a place on, in place of those that were not taken, and
    /// answers how many came: none at the end of the file alone.
    pub(crate) fn read<F: Folder>(
        &mut self,
        folder: &mut F,
        path: &str,
        at: u64,
    ) -> Result<usize, Failed>
        ensures count { IfOk result (λ n. n ≡ length self.new) }
        ensures few { length self.new ≤ PIECE_BYTES }
        ensures next { IfOk result (λ _. IfSome (F.view folder.new).content (λ c. ReadsNext c path.now at self.new)) }
        ensures content { Tells_content (F.view folder.new) → (F.view folder.new).content ≡ (F.view folder.old).content }
        ensures tries { Tries (Reading path.now) (F.view folder.old) (F.view folder.new) }
        ensures cause { OnErr result (Rose (F.view folder.old).folder_faults (F.view folder.new).folder_faults) }
        ensures steady { OnOk result ((F.view folder.new).folder_faults ≡ (F.view folder.old).folder_faults) }
    {
        self.begin = 0;
        self.end = 0;
        let count = folder.read_piece(path, at, &mut self.bytes)?;
        self.end = count;
        Ok(count)
    }
}
