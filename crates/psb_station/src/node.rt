//! What stands at a path of a folder in memory.
ghost use Rattle.std.specs.Prelude.{◌≡◌, ◌⊎◌, ◌++◌, length, None, Some, OnOk, OnErr};
ghost use Rattle.psb_station.specs.Folder.{File, kind_of};
ghost use Rattle.psb_station.specs.Node.{stored_of, bytes_in, IsFullFor};

use crate::{Failed, Kind};

#[derive(Drop)]
pub enum Node {
    Folder,
    File(Vec<u8>),
}

/// Adds bytes at the end of a file.
pub fn lengthen(node: &mut Node, piece: &[u8]) -> Result<(), Failed>
    ensures ok { OnOk result ((bytes : _) × (stored_of node.old ≡ File bytes) × (stored_of node.new ≡ File (bytes ++ piece.now))) }
    ensures err { OnErr result (stored_of node.new ≡ stored_of node.old) }
    ensures cause { OnErr result ((bytes_in (Some (stored_of node.old)) ≡ None) ⊎ IsFullFor (length piece.now) (Some node.old)) }
{
    match node {
        Node::File(bytes) => match bytes.extend_from_slice(piece) {
            Ok(()) => Ok(()),
            Err(_) => Err(Failed),
        },
        Node::Folder => Err(Failed),
    }
}

/// The kind of what stands there.
pub fn kind_of_node(node: &Node) -> Kind
    ensures { result ≡ kind_of (stored_of node.now) }
{
    match node {
        Node::Folder => Kind::Folder,
        Node::File(_) => Kind::File,
    }
}
