use psb_bytes::PeerId;

/// Whose a body is: the node's own, or a peer's.
#[derive(Clone, Copy, PartialEq, Eq, Debug)]
pub enum Owner {
    Own,
    Peer(PeerId),
}
