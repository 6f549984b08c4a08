//! The devices in memory always tell what they hold, so what a clause says of a device that tells holds
//! of them at any time.
ghost use Rattle.psb_station.specs.Span.{Tells_bytes};
ghost use Rattle.psb_station.specs.Folder.{Tells_content};

use crate::{Disk, Folder, MemFolder, MemStation};

/// A station in memory tells its bytes.
pub fn memory_always_tells(_station: &MemStation)
    ensures { Tells_bytes (⟦<MemStation as Disk>⟧.view _station.now) }
{}

/// A folder in memory tells what it holds.
pub fn memory_folder_always_tells(_folder: &MemFolder)
    ensures { Tells_content (⟦<MemFolder as Folder>⟧.view _folder.now) }
{}
