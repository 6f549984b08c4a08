//! The entries of a folder in memory, in the order of their paths.
ghost use Rattle.std.specs.Prelude.{◌≡◌, ◌≢◌, ◌⊎◌, ◌<◌, ◌≤◌, [], length, slice_get, Err, IfSome, MatchResult, None, Some, OnOk, OnErr};
ghost use Rattle.std.specs.Option.{option_map, option_copied};
ghost use Rattle.std.proofs.Props.{props};
ghost use Rattle.std.specs.List.Sorted.{IsStrictlySortedBy-prop};
ghost use Rattle.std.specs.Ordering.{nat_cmp};
ghost use Rattle.std.specs.Cmp.Lexicographic.{slice_cmp};
ghost use Rattle.std.specs.Map.{keys_of};
ghost use Rattle.psb_station.specs.Node.{stored_of, bytes_in, IsFullFor};
ghost use Rattle.psb_station.specs.Entry.{entries_in, ArePieces, ArePaths, Ascend, by_path, IsPlace, Updates, Lengthens, SameStored};

use crate::Failed;
use crate::node::{Node, lengthen};
use crate::piece::{Piece, put};
use std::alloc::{AllocError, Global};
use std::cmp::Ordering;

/// Where the bytes of a path stand, and what stands at it.
#[derive(Drop)]
pub struct Entry {
    pub path: Piece,
    pub node: Node,
}

/// Entries that ascend by the bytes of their paths, none of which is the root's. The paths stand in
/// one list, so that each growth that is refused shows as a list that is full.
#[derive(Drop)]
pub struct Entries {
    pub paths: Vec<u8>,
    pub list: Vec<Entry>,
    ghost within: { ArePieces (length paths.items) list.items } by { Prim.hlevel props },
    ghost names: { ArePaths (entries_in paths.items list.items) } by { Prim.hlevel props },
    ghost ascend: { Ascend (entries_in paths.items list.items) } by { IsStrictlySortedBy-prop (slice_cmp nat_cmp) (keys_of (entries_in paths.items list.items)) },
}

impl Entries {
    ghost use Rattle.psb_station.specs.Entries.{entries_of, HasRoomFor, IsTooFullFor};

    /// None. Takes no memory.
    pub fn new(alloc: Global) -> Entries
        ensures { entries_of result ≡ [] }
    {
        Entries {
            paths: Vec::new(alloc),
            list: Vec::new(alloc),
        }
    }

    pub fn len(&self) -> usize
        ensures { result ≡ length (entries_of self.now) }
    {
        self.list.len()
    }

    /// The path of one.
    pub fn path(&self, i: usize) -> &str
        requires { i < length (entries_of self.now) }
        ensures { IfSome (slice_get (entries_of self.now) i) (λ e. result.now ≡ e.0) }
    {
        str::from_utf8(self.list[i].path.of(&self.paths)).unwrap()
    }

    /// What stands at the path of one.
    pub fn node(&self, i: usize) -> &Node
        requires { i < length (entries_of self.now) }
        ensures { IfSome (slice_get (entries_of self.now) i) (λ e. result.now ≡ e.1) }
    {
        &self.list[i].node
    }

    /// How the path of one compares with another, by their bytes.
    fn compare(&self, i: usize, path: &str) -> Ordering
        requires { i < length (entries_of self.now) }
        ensures { IfSome (slice_get (entries_of self.now) i) (λ e. result ≡ slice_cmp nat_cmp e.0 path.now) }
    {
        self.list[i].path.of(&self.paths).cmp(path.as_bytes())
    }

    /// Where a path stands, or where it would stand.
    fn place(&self, path: &str) -> Result<usize, usize>
        ensures bound { MatchResult result (λ i. i < length (entries_of self.now)) (λ i. i ≤ length (entries_of self.now)) }
        ensures place { IsPlace (entries_of self.now) path.now result }
    {
        let mut low = 0;
        let mut high = self.list.len();
        while low < high {
            let middle = low + (high - low) / 2;
            match self.compare(middle, path) {
                Ordering::Less => low = middle + 1,
                Ordering::Equal => return Ok(middle),
                Ordering::Greater => high = middle,
            }
        }
        Err(low)
    }

    /// What stands at a path.
    pub fn get(&self, path: &str) -> Option<&Node>
        ensures { option_copied result ≡ by_path (entries_of self.now) path.now }
    {
        match self.place(path) {
            Ok(place) => Some(&self.list[place].node),
            Err(_) => None,
        }
    }

    /// Makes room for one more, with a path of so many bytes.
    fn make_room(&mut self, more: usize) -> Result<(), AllocError>
        ensures room { OnOk result (HasRoomFor more self.new) }
        ensures same { entries_of self.new ≡ entries_of self.old }
        ensures full { OnErr result (IsTooFullFor more self.old) }
    {
        self.list.reserve(1)?;
        self.paths.reserve(more)
    }

    /// Adds one where its path would stand, for which there is room.
    fn add(&mut self, place: usize, path: &str, node: Node)
        requires room { HasRoomFor (length path.now) self.old }
        requires place { IsPlace (entries_of self.old) path.now (Err place) }
        requires below { path.now ≢ [] }
        ensures { Updates (entries_of self.old) (entries_of self.new) path.now (Some node) }
    {
        let path = put(&mut self.paths, path.as_bytes());
        self.list.insert(place, Entry { path, node }).unwrap();
    }

    /// Puts what stands at a path in the place of what stood there.
    pub fn insert(&mut self, path: &str, node: Node) -> Result<(), AllocError>
        requires { path.now ≢ [] }
        ensures ok { OnOk result (Updates (entries_of self.old) (entries_of self.new) path.now (Some node)) }
        ensures err { OnErr result (entries_of self.new ≡ entries_of self.old) }
        ensures full { OnErr result (IsTooFullFor (length path.now) self.old) }
    {
        match self.place(path) {
            Ok(place) => self.list[place].node = node,
            Err(place) => {
                self.make_room(path.len())?;
                self.add(place, path, node);
            }
        }
        Ok(())
    }

    /// Puts what stands at a path in the place of what stood there, where something did.
    pub fn replace(&mut self, path: &str, node: Node)
        requires { by_path (entries_of self.old) path.now ≢ None }
        ensures { Updates (entries_of self.old) (entries_of self.new) path.now (Some node) }
    {
        if let Ok(place) = self.place(path) {
            self.list[place].node = node;
        }
    }

    /// Takes away what stands at a path. The bytes of the path stay.
    pub fn remove(&mut self, path: &str)
        ensures { Updates (entries_of self.old) (entries_of self.new) path.now None }
    {
        if let Ok(place) = self.place(path) {
            self.list.remove(place);
        }
    }

    /// Adds bytes at the end of the file at a path.
    pub fn append(&mut self, path: &str, piece: &[u8]) -> Result<(), Failed>
        ensures ok { OnOk result (Lengthens (entries_of self.old) (entries_of self.new) path.now piece.now) }
        ensures err { OnErr result (SameStored (entries_of self.old) (entries_of self.new)) }
        ensures cause { OnErr result ((bytes_in (option_map stored_of (by_path (entries_of self.old) path.now)) ≡ None) ⊎ IsFullFor (length piece.now) (by_path (entries_of self.old) path.now)) }
    {
        match self.place(path) {
            Ok(place) => lengthen(&mut self.list[place].node, piece),
            Err(_) => Err(Failed),
        }
    }
}
