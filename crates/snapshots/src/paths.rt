//! Paths below a folder.
ghost use Rattle.std.specs.Prelude.{◌≡◌, IfOk};
ghost use Rattle.psb_station.specs.Folder.{child};

use psb_bytes::{Memory, Text};
use std::alloc::Global;

/// The path of what stands at a name, or at a path, in the folder at a path: the two joined by `/`.
pub fn child_path(alloc: Global, folder: &str, below: &str) -> Result<Text, Memory>
    ensures { IfOk result (λ path. path ≡ child folder.now below.now) }
{
    let mut path = String::from_str(alloc, folder)?;
    path.push_str("/")?;
    path.push_str(below)?;
    Ok(Text::from_string(path))
}
