//! Pieces of bytes that stand one behind the other in one list.
ghost use Rattle.std.specs.Prelude.{◌≡◌, ◌≤◌, ◌+◌, ◌++◌, length, vec_len, vec_capacity};
ghost use Rattle.psb_station.specs.Piece.{piece_of, IsIn};

/// Where a piece stands in a list of bytes.
#[derive(Clone, Copy)]
pub struct Piece {
    pub begin: usize,
    pub end: usize,
}

impl Piece {
    /// The bytes of a piece.
    pub fn of(self, bytes: &[u8]) -> &[u8]
        requires { IsIn (length bytes.now) self }
        ensures { result.now ≡ piece_of bytes.now self }
    {
        &bytes[self.begin..self.end]
    }
}

/// Puts bytes at the end of a list that has room for them.
pub fn put(bytes: &mut Vec<u8>, more: &[u8]) -> Piece
    requires { vec_len bytes.old + length more.now ≤ vec_capacity bytes.old }
    ensures put { bytes.new.items ≡ bytes.old.items ++ more.now }
    ensures begin { result.begin ≡ length bytes.old.items }
    ensures end { result.end ≡ length bytes.new.items }
{
    let begin = bytes.len();
    let _ = bytes.extend_from_slice(more);
    let end = bytes.len();
    Piece { begin, end }
}
