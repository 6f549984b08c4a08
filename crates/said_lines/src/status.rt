//! How a run of the program ends: its exit status, and the line of a refusal.

ghost use Rattle.std.specs.Prelude.{◌≡◌};
ghost use Rattle.said_lines.specs.Status.{code_of, fault_number, refusal_line};

use crate::short_line::ShortLine;
use psb_bytes::{Bytes, Digest};
use psb_digest::{Clash, sha};
use skeleton::SkelFault;

/// How a run of the program ended. The first fault decides.
#[derive(Drop)]
pub enum Status {
    /// The command was carried out and all its lines were said.
    Done,
    /// The words are no command.
    Usage,
    /// A call on the disk failed during the run.
    DiskFault,
    /// A join, or the receiving of a frame, failed on the link during the run. A frame that could not
    /// be sent is counted as lost instead.
    LinkFault,
    /// A call on the folder failed during the run.
    FolderFault,
    /// A line on the way to `Done` could not be said. The changes made stay.
    SayFault,
    /// The disk holds no node.
    NotNode,
    /// A node was to begin on a disk that is not empty.
    Already,
    /// The settings file says no settings, or is too long.
    BadSettings,
    /// No kept snapshot has this number.
    NoSnapshot(u32),
    /// A path of the folder has more than 4,096 bytes, its skeleton more than 67,108,864, or
    /// 4,294,967,295 snapshots were made before.
    TooLarge,
    /// A chunk of the snapshot is not here, and no peer answered with it.
    Missing(Digest),
    /// No body of a chunk opens: neither the node's own nor any that peers answered with, of which the last
    /// is told.
    Altered { name: Digest, got: Bytes },
    /// Two texts that differ and have one SHA-256 were to be kept: the two, as they are sealed.
    Clash(Clash),
    /// Something stands in the folder into which a snapshot was to be written.
    NotEmpty,
    /// A text of the snapshot is outside the grammar: its first fault, and the place of that.
    BadSkeleton { fault: SkelFault, place: u32 },
    /// A request for memory was refused.
    Memory,
}

/// The number of a fault of a text.
fn fault_number(fault: SkelFault) -> u32
    ensures { result ≡ fault_number fault }
{
    match fault {
        SkelFault::BadMark => 1,
        SkelFault::BadOrder => 2,
        SkelFault::BadPath => 3,
        SkelFault::BadCount => 4,
        SkelFault::Short => 5,
        SkelFault::Trailing => 6,
        SkelFault::TooLong => 7,
    }
}

impl Status {
    /// The exit status of the program.
    pub fn code(&self) -> u8
        ensures { result ≡ code_of self.now }
    {
        match self {
            Status::Done => 0,
            Status::Usage => 2,
            Status::DiskFault => 3,
            Status::LinkFault => 4,
            Status::FolderFault => 5,
            Status::SayFault => 6,
            Status::NotNode => 7,
            Status::Already => 8,
            Status::BadSettings => 9,
            Status::NoSnapshot(_) => 10,
            Status::TooLarge => 11,
            Status::Missing(_) => 12,
            Status::Altered { .. } => 13,
            Status::Clash(_) => 14,
            Status::NotEmpty => 16,
            Status::BadSkeleton { .. } => 17,
            Status::Memory => 18,
        }
    }

    /// The line that is said for a refusal, with its line feed; empty where none is said. Takes no memory.
    pub(crate) fn refusal(&self) -> ShortLine
        ensures { result ≡ refusal_line self.now }
    {
        match self {
            Status::Done | Status::SayFault => ShortLine::of(b""),
            Status::Usage => ShortLine::of(b"usage\n"),
            Status::DiskFault => ShortLine::of(b"disk fault\n"),
            Status::LinkFault => ShortLine::of(b"link fault\n"),
            Status::FolderFault => ShortLine::of(b"folder fault\n"),
            Status::NotNode => ShortLine::of(b"not a node\n"),
            Status::Already => ShortLine::of(b"disk not empty\n"),
            Status::BadSettings => ShortLine::of(b"bad settings\n"),
            Status::NoSnapshot(number) => ShortLine::of_number(b"no snapshot ", *number, b"\n"),
            Status::TooLarge => ShortLine::of(b"too large\n"),
            Status::Missing(name) => ShortLine::of_digest(b"missing ", name, b"\n"),
            Status::Altered { name, .. } => ShortLine::of_digest(b"altered ", name, b"\n"),
            Status::Clash(clash) => ShortLine::of_digest(b"clash ", &sha(clash.first()), b"\n"),
            Status::NotEmpty => ShortLine::of(b"target not empty\n"),
            Status::BadSkeleton { fault, place } => ShortLine::of_fault(
                fault_number(*fault),
                *place,
            ),
            Status::Memory => ShortLine::of(b"no memory\n"),
        }
    }
}
