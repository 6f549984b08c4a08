//! What a line asks for. A text of cases is lines, each ended by a line feed, of words with one space
//! between each two. A line that begins with `#`, and an empty one, is passed over.
//!
//! A number N is decimal digits without sign or leading zero. HEX is two lower-case digits for each
//! byte, or `-` for no bytes. The lines are:
//!
//! - `case NAME`
//! - `image HEX`, `frame HEX`, `clock N ..`
//! - `fault KIND N`, where KIND is `len`, `read`, `write`, `cut`, `sync`, `join`, `recv`, `send` or `say`
//! - `trouble KIND N`, where KIND is `list`, `read_piece`, `make_folder`, `make_file` or `append`
//! - `file PATH HEX`, `folder PATH`
//! - `run WORD ..`
//! - `left N OUTCOME`, where OUTCOME is 0, 1 or 2
//! - `body NAME`, where NAME is 64 digits
//! - `absorb HEX`, `keep HEX`
//! - `tree`
use crate::stop::Stop;
use crate::words::{
    Outcome, read_folder_call, read_hex, read_ordinal, read_outcome, read_station_call,
};
use backup_cli::read_number;
use psb_bytes::{Digest, read_digest};
use psb_station::{CallKind, Planned, StationCall};
use std::alloc::Global;

/// What a line asks for.
#[derive(Drop)]
pub enum Command<'a> {
    /// A new case of this name.
    Case(&'a str),
    /// These bytes are added at the end of the image.
    Image(Vec<u8>),
    /// One more datagram that will arrive.
    Frame(Vec<u8>),
    /// The numbers that the clock gives.
    Clock(Vec<u64>),
    /// A call of the station that fails in the next run.
    Fault(Planned<StationCall>),
    /// A call of the folder that fails in the next run.
    Trouble(Planned<CallKind>),
    /// A file of these bytes stands at a path.
    File(&'a str, Vec<u8>),
    /// A folder stands at a path.
    Folder(&'a str),
    /// The program is run with these words.
    Run(Vec<String>),
    /// The image becomes what a crash at this change of the disk in the last run leaves.
    Left(u64, Outcome),
    /// The body that the image's node holds under a name is read twice, and what came of it is printed.
    Body(Digest),
    /// The image's node absorbs this datagram twice, with the faults of the next run, and what came of it
    /// is printed.
    Absorb(Vec<u8>),
    /// The image's node keeps these bytes, sealed, twice, as it absorbs a datagram.
    Keep(Vec<u8>),
    /// What the folder holds is printed.
    Tree,
}

/// What a line asks for.
pub fn read_command(alloc: Global, line: &str) -> Result<Command<'_>, Stop> {
    let words: Vec<&str> = line.split(' ').collect(alloc)?;
    let Some((first, rest)) = words.split_first() else {
        return Err(Stop::Outside);
    };
    match *first {
        "clock" => Ok(Command::Clock(read_numbers(alloc, rest)?)),
        "run" => Ok(Command::Run(copy_words(alloc, rest)?)),
        first => read_short(alloc, first, rest),
    }
}

/// What a line of at most three words asks for.
fn read_short<'a>(alloc: Global, first: &str, rest: &[&'a str]) -> Result<Command<'a>, Stop> {
    match (first, rest) {
        ("case", [name]) => Ok(Command::Case(name)),
        ("image", [bytes]) => Ok(Command::Image(read_hex(alloc, bytes)?)),
        ("frame", [bytes]) => Ok(Command::Frame(read_hex(alloc, bytes)?)),
        ("fault", [kind, number]) => Ok(Command::Fault(read_fault(kind, number)?)),
        ("trouble", [kind, number]) => Ok(Command::Trouble(read_trouble(kind, number)?)),
        ("file", [path, bytes]) => Ok(Command::File(path, read_hex(alloc, bytes)?)),
        ("folder", [path]) => Ok(Command::Folder(path)),
        ("left", [number, outcome]) => read_left(number, outcome),
        ("body", [name]) => Ok(Command::Body(read_digest(name).ok_or(Stop::Outside)?)),
        ("absorb", [bytes]) => Ok(Command::Absorb(read_hex(alloc, bytes)?)),
        ("keep", [bytes]) => Ok(Command::Keep(read_hex(alloc, bytes)?)),
        ("tree", []) => Ok(Command::Tree),
        _ => Err(Stop::Outside),
    }
}

fn read_numbers(alloc: Global, words: &[&str]) -> Result<Vec<u64>, Stop> {
    let mut numbers = Vec::new(alloc);
    for word in words {
        numbers.push(read_number(word).ok_or(Stop::Outside)?)?;
    }
    Ok(numbers)
}

fn copy_words(alloc: Global, words: &[&str]) -> Result<Vec<String>, Stop> {
    let mut copies = Vec::new(alloc);
    for word in words {
        copies.push(String::from_str(alloc, word)?)?;
    }
    Ok(copies)
}

fn read_fault(kind: &str, number: &str) -> Result<Planned<StationCall>, Stop> {
    let kind = read_station_call(kind).ok_or(Stop::Outside)?;
    let number = read_ordinal(number).ok_or(Stop::Outside)?;
    Ok(Planned { kind, number })
}

fn read_trouble(kind: &str, number: &str) -> Result<Planned<CallKind>, Stop> {
    let kind = read_folder_call(kind).ok_or(Stop::Outside)?;
    let number = read_ordinal(number).ok_or(Stop::Outside)?;
    Ok(Planned { kind, number })
}

fn read_left<'a>(number: &str, outcome: &str) -> Result<Command<'a>, Stop> {
    let number = read_ordinal(number).ok_or(Stop::Outside)?;
    let outcome = read_outcome(outcome).ok_or(Stop::Outside)?;
    Ok(Command::Left(number, outcome))
}
