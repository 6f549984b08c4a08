//! The laws of the grammar, for each frame and each datagram.
ghost use Rattle.wire_codec.specs.Laws.{SpelledIsRead, ReadIsSpelled, OneDatagram, OneFrame};

/// What a peer spells is read by the node that it is for.
pub fn spelled_is_read()
    ensures { SpelledIsRead }
{}

/// What is read is what its sender spells, each byte of it.
pub fn read_is_spelled()
    ensures { ReadIsSpelled }
{}

/// No two datagrams are read as one frame.
pub fn one_datagram()
    ensures { OneDatagram }
{}

/// No two frames have one datagram.
pub fn one_frame()
    ensures { OneFrame }
{}
