//! What is noted of a call.
use psb_station::{Failed, FolderError, Item};

/// A call of a device, as the system answered it. Where it failed, no bytes and no items came.
#[derive(Clone, Copy)]
pub(crate) enum Call<'a> {
    Len(Result<u64, Failed>),
    /// How many bytes were asked for, and those that came.
    Read {
        at: u64,
        asked: u64,
        came: &'a [u8],
        answer: Result<(), Failed>,
    },
    /// All bytes that were given, and how many of them went down.
    Write {
        at: u64,
        given: &'a [u8],
        down: u64,
        answer: Result<(), Failed>,
    },
    Cut {
        len: u64,
        answer: Result<(), Failed>,
    },
    Sync(Result<(), Failed>),
    Join {
        id: u32,
        address: &'a str,
        answer: Result<(), Failed>,
    },
    /// The frame that came, or none.
    Recv(Result<Option<&'a [u8]>, Failed>),
    Send {
        to: u32,
        frame: &'a [u8],
        answer: Result<(), Failed>,
    },
    Say {
        text: &'a [u8],
        answer: Result<(), Failed>,
    },
    Now(u64),
    List {
        path: &'a str,
        items: &'a [Item],
        answer: Result<(), FolderError>,
    },
    /// How many bytes were asked for, and those that came.
    ReadPiece {
        path: &'a str,
        at: u64,
        asked: u64,
        came: &'a [u8],
        answer: Result<(), Failed>,
    },
    MakeFolder {
        path: &'a str,
        answer: Result<(), Failed>,
    },
    MakeFile {
        path: &'a str,
        answer: Result<(), Failed>,
    },
    /// All bytes that were given, and how many of them were added.
    Append {
        path: &'a str,
        given: &'a [u8],
        down: u64,
        answer: Result<(), Failed>,
    },
}
