//! The marks, the kinds and the limits of the two texts.

use psb_bytes::LONGEST_CHUNK;

/// What the text of a skeleton begins with.
pub const SKELETON_MARK: [u8; 8] = *b"PSBSKEL1";

/// What a text of refs begins with.
pub const REFS_MARK: [u8; 8] = *b"PSBREFS1";

/// The bytes of a mark.
pub const MARK_BYTES: usize = 8;

/// The most bytes of a text.
pub const MOST_TEXT_BYTES: usize = 67_108_864;

/// The most bytes of a path. The least is 1.
pub const MOST_PATH_BYTES: u16 = 4_096;

/// The most bytes of a chunk. The least is 1.
pub const MOST_CHUNK_BYTES: u32 = LONGEST_CHUNK;

/// The bytes of a name and of a handle.
pub const DIGEST_BYTES: usize = 32;

/// The byte that stands for a folder.
pub const FOLDER_KIND: u8 = 0;

/// The byte that stands for a file.
pub const FILE_KIND: u8 = 1;
