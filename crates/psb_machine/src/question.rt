use psb_bytes::{Digest, DigestList};

/// What peers are asked before buddies are chosen among them: which of these names they hold, at most 32. The salt and
/// the number are those of the latest snapshot's change.
#[derive(Drop)]
pub struct Question {
    pub number: u64,
    pub salt: Digest,
    pub names: DigestList,
}
