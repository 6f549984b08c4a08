use psb_bytes::{DigestList, Ticket};

/// What a snapshot is noted with: what opens it, the counts of its files, its folders, their bytes and
/// what was left out, and the names of its chunks, ascending.
#[derive(Drop)]
pub struct SnapNote {
    pub ticket: Ticket,
    pub files: u32,
    pub folders: u32,
    pub bytes: u64,
    pub left: u32,
    pub names: DigestList,
}
