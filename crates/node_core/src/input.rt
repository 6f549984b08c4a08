use convergent_seal::Sealed;
use psb_bytes::PeerId;
use psb_machine::SnapNote;

/// What is fed to a node.
#[derive(Drop)]
pub enum Input<'a> {
    /// A datagram.
    Frame(&'a [u8]),
    /// A tick of a peer.
    Tick(PeerId),
    /// A sealed piece of 1 to `LONGEST_CHUNK` bytes, which the node is to keep for itself.
    Keep(&'a Sealed),
    /// A snapshot of chunks that the node keeps for itself.
    Snap(&'a SnapNote),
    /// The number of a snapshot that is to be given up.
    Forget(u32),
}
