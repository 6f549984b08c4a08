ghost use Rattle.std.specs.Prelude.{◌≡◌, ◌≢◌, ◌⊎◌, ◌-◌, [], OnOk, OnErr, IfOk, length, map, take, drop, min, Some, None, true};
ghost use Rattle.std.specs.String.{string_bytes};
ghost use Rattle.std.specs.FinMap.{get, insert};
ghost use Rattle.psb_station.specs.Folder.{plain, parent, Folder, File};
ghost use Rattle.psb_station.specs.Node.{stored_of, bytes_in};
ghost use Rattle.psb_station.specs.Entries.{IsTooFullFor};
ghost use Rattle.psb_station.specs.MemTree.{held, takes_folder, takes_file, with_put, ArePathsOf, HasEntry};
ghost use Rattle.std.specs.Option.{option_map};

use crate::call_log::{CallKind, CallLog};
use crate::count::fault;
use crate::mem_tree::Tree;
use crate::node::Node;
use crate::paths::{parent, plain};
use crate::plan::Planned;
use crate::{Failed, Folder, FolderError, Item, Kind};
use psb_bytes::Memory;
use std::alloc::Global;

/// A folder in memory. It keeps the calls that were tried, and fails at those of the given numbers,
/// counted from 1 over all its methods of the trait. A call whose own growth is refused fails too,
/// but `list` answers `Memory` where its answer could not be made.
#[derive(Drop)]
pub struct MemFolder {
    alloc: Global,
    tree: Tree,
    log: CallLog,
    folder_faults: u64,
}

/// Fills bytes of a file, from a place on, as many as stand and fit.
fn copy_piece(bytes: &[u8], at: u64, into: &mut [u8]) -> usize
    ensures count { result ≡ min (length into.new) (length bytes.now - at) }
    ensures piece { take result into.new ≡ take result (drop at bytes.now) }
{
    if at >= bytes.len() as u64 {
        return 0;
    }
    let begin = at as usize;
    let count = into.len().min(bytes.len() - begin);
    into[..count].copy_from_slice(&bytes[begin..begin + count]);
    count
}

/// Makes an entry where nothing stands and the path is in a folder.
fn make(tree: &mut Tree, path: &str, node: Node) -> Result<(), Failed>
    ensures parent { OnOk result (get (held tree.old) (parent path.now) ≡ Some Folder) }
    ensures new { OnOk result (get (held tree.old) path.now ≡ None) }
    ensures made { OnOk result (held tree.new ≡ insert (held tree.old) path.now (stored_of node)) }
    ensures err { OnErr result (held tree.new ≡ held tree.old) }
    ensures cause { OnErr result (((get (held tree.old) (parent path.now) ≢ Some Folder) ⊎ (get (held tree.old) path.now ≢ None)) ⊎ IsTooFullFor (length path.now) tree.old.entries) }
{
    let Some(Kind::Folder) = tree.kind(parent(path)) else {
        return Err(Failed);
    };
    match tree.kind(path) {
        Some(_) => Err(Failed),
        None => match tree.insert(path, node) {
            Ok(()) => Ok(()),
            Err(_) => Err(Failed),
        },
    }
}

impl MemFolder {
    ghost use Rattle.psb_station.specs.MemFolder.{view_of, holds, calls_made, failing, planned_of, IsFresh, Puts};

    /// A folder that holds its root alone; its calls of the given numbers fail. Takes no memory.
    pub fn new(alloc: Global, faults: Vec<u64>) -> MemFolder
        ensures fresh { IsFresh (view_of result) }
        ensures failing { failing result ≡ faults.items }
        ensures planned { planned_of result ≡ [] }
        ensures no_call { calls_made result ≡ 0 }
    {
        MemFolder {
            alloc,
            tree: Tree::new(alloc),
            log: CallLog::new(alloc, faults),
            folder_faults: 0,
        }
    }

    /// Has the calls of these kinds and numbers fail, counted from here, and no other that was planned
    /// by its kind.
    pub fn plan(&mut self, faults: Vec<Planned<CallKind>>)
        ensures { Puts (holds self.old) faults.items self.old self.new }
    {
        self.log.plan = faults;
    }

    /// The paths of all that it holds below its root, ascending by their bytes.
    pub fn paths(&self) -> Result<Vec<String>, Memory>
        ensures paths { IfOk result (λ paths. ArePathsOf (holds self.now) (map string_bytes paths.items)) }
        ensures err { OnErr result (HasEntry (holds self.now)) }
    {
        self.tree.paths()
    }

    /// The bytes of the file at a path. This is no call of the folder.
    pub fn file(&self, path: &str) -> Option<&[u8]>
        ensures { option_map (λ b. b.now) result ≡ bytes_in (get (holds self.now) (plain path.now)) }
    {
        self.tree.file(plain(path))
    }

    /// Whether a folder may be put at a path: no file stands there or above it.
    pub fn takes_folder(&self, path: &str) -> bool
        ensures { result ≡ takes_folder (holds self.now) (plain path.now) }
    {
        self.tree.takes_folder(plain(path))
    }

    /// Whether a file may be put at a path: no folder stands there, and no file above it.
    pub fn takes_file(&self, path: &str) -> bool
        ensures { result ≡ takes_file (holds self.now) (plain path.now) }
    {
        self.tree.takes_file(plain(path))
    }

    /// Puts a folder at a path, with the folders above it. This is no call of the folder.
    pub fn put_folder(&mut self, path: &str) -> Result<(), Memory>
        requires { takes_folder (holds self.old) (plain path.now) ≡ true }
        ensures ok { OnOk result (Puts (with_put (holds self.old) (plain path.now) Folder) (planned_of self.old) self.old self.new) }
        ensures err { OnErr result (Puts (holds self.old) (planned_of self.old) self.old self.new) }
    {
        self.tree.put_folder(plain(path))?;
        Ok(())
    }

    /// Puts a file at a path, in the place of an older one, with the folders above it. This is no
    /// call of the folder.
    pub fn put_file(&mut self, path: &str, content: &[u8]) -> Result<(), Memory>
        requires { takes_file (holds self.old) (plain path.now) ≡ true }
        ensures ok { OnOk result (Puts (with_put (holds self.old) (plain path.now) (File content.now)) (planned_of self.old) self.old self.new) }
        ensures err { OnErr result (Puts (holds self.old) (planned_of self.old) self.old self.new) }
    {
        let bytes = content.to_vec(self.alloc)?;
        self.tree.put_file(plain(path), bytes)?;
        Ok(())
    }
}

impl Folder for MemFolder {
    ghost use Rattle.psb_station.specs.MemFolder.{view_of, dues_of, Fails, Lacks, Works};

    ghost view = { view_of };

    ghost dues = { dues_of };

    ghost failed = { Fails };

    ghost lacked = { Lacks };

    ghost worked = { Works };

    fn list(&mut self, path: &str) -> Result<Vec<Item>, FolderError> {
        let due = self.log.begin(CallKind::List, path);
        let path = plain(path);
        match self.tree.kind(path) {
            Some(Kind::Folder) if !due => match self.tree.children(path) {
                Ok(items) => Ok(items),
                Err(_) => Err(FolderError::Memory),
            },
            _ => {
                fault(&mut self.folder_faults);
                Err(FolderError::Failed)
            }
        }
    }

    fn read_piece(&mut self, path: &str, at: u64, into: &mut [u8]) -> Result<usize, Failed> {
        if self.log.begin(CallKind::ReadPiece, path) {
            return Err(fault(&mut self.folder_faults));
        }
        match self.tree.file(plain(path)) {
            Some(bytes) => Ok(copy_piece(bytes, at, into)),
            None => Err(fault(&mut self.folder_faults)),
        }
    }

    fn make_folder(&mut self, path: &str) -> Result<(), Failed> {
        if self.log.begin(CallKind::MakeFolder, path) {
            return Err(fault(&mut self.folder_faults));
        }
        match make(&mut self.tree, plain(path), Node::Folder) {
            Ok(()) => Ok(()),
            Err(_) => Err(fault(&mut self.folder_faults)),
        }
    }

    fn make_file(&mut self, path: &str) -> Result<(), Failed> {
        if self.log.begin(CallKind::MakeFile, path) {
            return Err(fault(&mut self.folder_faults));
        }
        match make(
            &mut self.tree,
            plain(path),
            Node::File(Vec::new(self.alloc)),
        ) {
            Ok(()) => Ok(()),
            Err(_) => Err(fault(&mut self.folder_faults)),
        }
    }

    fn append(&mut self, path: &str, piece: &[u8]) -> Result<(), Failed> {
        if self.log.begin(CallKind::Append, path) {
            return Err(fault(&mut self.folder_faults));
        }
        match self.tree.append(plain(path), piece) {
            Ok(()) => Ok(()),
            Err(_) => Err(fault(&mut self.folder_faults)),
        }
    }
}

#[cfg(test)]
mod tests;
