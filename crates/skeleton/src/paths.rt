//! Paths: which are valid, and their order.
ghost use Rattle.std.specs.Prelude.{◌≡◌, MatchOption, true, false};
ghost use Rattle.skeleton.specs.Paths.{within, is_path, is_below};
ghost use Rattle.skeleton.specs.declared.limits.TheConstants.{MOST_PATH_BYTES};

use crate::limits::MOST_PATH_BYTES;
use psb_bytes::has_names;
use std::cmp::Ordering;
use std::str::from_utf8;

/// Whether a path may have so many bytes.
fn is_path_len(len: usize) -> bool
    ensures { result ≡ within 1 MOST_PATH_BYTES len }
{
    1 <= len && len <= usize::from(MOST_PATH_BYTES)
}

/// Whether a text is a valid path.
#[tactic(auto, using(crate::proofs::PathLemmas::path_of_text), unfolding(crate::specs::Paths::is_path))]
pub(crate) fn is_valid_path(path: &str) -> bool
    ensures { result ≡ is_path path.now }
{
    is_path_len(path.len()) && has_names(path)
}

/// The path that these bytes are, where they are one.
pub(crate) fn valid_path(bytes: &[u8]) -> Option<&str>
    ensures { MatchOption result (is_path bytes.now ≡ false) (λ path. (path.now ≡ bytes.now) × (is_path bytes.now ≡ true)) }
{
    match from_utf8(bytes) {
        Ok(path) if is_valid_path(path) => Some(path),
        Ok(_) => None,
        Err(_) => None,
    }
}

/// Whether a path comes before another.
pub(crate) fn comes_before(a: &[u8], b: &[u8]) -> bool
    ensures { result ≡ is_below a.now b.now }
{
    a.cmp(b) == Ordering::Less
}
