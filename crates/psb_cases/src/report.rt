//! What is printed. After a run:
//!
//! - `code N`, the status's code
//! - `| TEXT` for each line that was said
//! - `sent TO LENGTH SHA256` for each frame that was sent, in order
//! - `joined ID ADDRESS` for each node that the link was told of, in order
//! - `image LENGTH SHA256`, what the disk reads
//!
//! After `body` two lines, of a disk of the image whose calls fail, and of one that does not:
//! `body LENGTH SHA256`, `body none` where none is held under the name, or `body fault`.
//!
//! After `absorb` two lines, one for each time: `absorb change N`, the number of the change that it made,
//! `absorb nothing` where it made none, `absorb fault` where the disk failed, or `absorb broken` where it
//! had failed in an append before.
//!
//! After `left` the line `left LENGTH SHA256`, or `left none` where the last run made fewer calls that
//! write. For `tree` a line `tree PATH folder` or `tree PATH LENGTH SHA256` for each entry below the
//! root, paths ascending by their bytes.
use crate::absorbing::Absorbed;
use crate::bodies::Found;
use crate::stop::Stop;
use psb_bytes::digest_text;
use psb_digest::sha;
use psb_station::{MemFolder, MemStation};
use std::alloc::Global;
use std::io;
use std::io::Write;

/// The length of bytes and their SHA-256, as words with a space in front of each.
fn print_bytes<W: Write>(alloc: Global, out: &mut W, bytes: &[u8]) -> Result<(), Stop> {
    let len = bytes.len();
    let digest = digest_text(alloc, &sha(bytes))?;
    writeln!(out, " {len} {digest}")?;
    Ok(())
}

/// The lines that were said.
fn print_said<W: Write>(out: &mut W, said: &[u8]) -> io::Result<()> {
    if said.is_empty() {
        return Ok(());
    }
    let lines = said.strip_suffix(b"\n").unwrap_or(said);
    for line in lines.split(|byte| *byte == b'\n') {
        out.write_all(b"| ")?;
        out.write_all(line)?;
        out.write_all(b"\n")?;
    }
    Ok(())
}

/// The frames that were sent.
fn print_sent<W: Write>(alloc: Global, out: &mut W, station: &MemStation) -> Result<(), Stop> {
    for j in 0..station.sent_count() {
        let to = station.sent_to(j);
        write!(out, "sent {to}")?;
        print_bytes(alloc, out, station.sent_frame(j))?;
    }
    Ok(())
}

/// Whom the link was told of.
fn print_joined<W: Write>(out: &mut W, station: &MemStation) -> io::Result<()> {
    for j in 0..station.joined_count() {
        let (id, address) = station.joined_node(j);
        write!(out, "joined {id} ")?;
        out.write_all(address)?;
        out.write_all(b"\n")?;
    }
    Ok(())
}

/// What came of a run.
pub fn print_run<W: Write>(
    alloc: Global,
    out: &mut W,
    code: u8,
    station: &MemStation,
) -> Result<(), Stop> {
    writeln!(out, "code {code}")?;
    print_said(out, station.said_bytes())?;
    print_sent(alloc, out, station)?;
    print_joined(out, station)?;
    write!(out, "image")?;
    print_bytes(alloc, out, station.image())
}

/// The image that a crash left.
pub fn print_left<W: Write>(alloc: Global, out: &mut W, image: &[u8]) -> Result<(), Stop> {
    write!(out, "left")?;
    print_bytes(alloc, out, image)
}

/// What came of reading a body.
pub fn print_found<W: Write>(
    alloc: Global,
    out: &mut W,
    found: Found,
    body: &[u8],
) -> Result<(), Stop> {
    write!(out, "body")?;
    match found {
        Found::Body => print_bytes(alloc, out, body)?,
        Found::Nothing => writeln!(out, " none")?,
        Found::Fault => writeln!(out, " fault")?,
    }
    Ok(())
}

/// What came of an input that was absorbed; `how` is the word of the line.
pub fn print_absorbed<W: Write>(out: &mut W, how: &str, absorbed: Absorbed) -> io::Result<()> {
    match absorbed {
        Absorbed::Change(number) => writeln!(out, "{how} change {number}"),
        Absorbed::Nothing => writeln!(out, "{how} nothing"),
        Absorbed::Fault => writeln!(out, "{how} fault"),
        Absorbed::Broken => writeln!(out, "{how} broken"),
    }
}

/// What the folder holds.
pub fn print_tree<W: Write>(alloc: Global, out: &mut W, folder: &MemFolder) -> Result<(), Stop> {
    for path in folder.paths()? {
        write!(out, "tree {path}")?;
        match folder.file(path.as_str()) {
            Some(bytes) => print_bytes(alloc, out, bytes)?,
            None => writeln!(out, " folder")?,
        }
    }
    Ok(())
}
