//! Reads a text of cases from standard input and prints what the program `psb` does in each, over a
//! station and a folder in memory. At a line that is outside of the language it prints `line` and the
//! line's number, and ends with status 1.
#![tactic(auto)]

mod absorbing;
mod bodies;
mod command;
mod report;
mod stop;
mod words;
mod world;

use bodies::{failing_disk, find_twice};
use command::{Command, read_command};
use psb_bytes::Digest;
use report::{print_absorbed, print_found, print_left, print_run, print_tree};
use std::alloc::Global;
use std::io;
use std::io::{BufRead, BufReader, BufWriter, Write};
use std::process::ExitCode;
use stop::Stop;
use words::Outcome;
use world::World;

/// Does what a line asks for.
fn obey<W: Write>(
    alloc: Global,
    world: &mut World,
    out: &mut W,
    command: Command<'_>,
) -> Result<(), Stop> {
    match command {
        Command::Case(name) => {
            *world = World::new(alloc);
            writeln!(out, "case {name}")?;
        }
        Command::Image(bytes) => world.image.extend_from_slice(&bytes)?,
        Command::Frame(frame) => world.add_frame(frame)?,
        Command::Clock(numbers) => world.clock = numbers,
        Command::Fault(fault) => world.faults.push(fault)?,
        Command::Trouble(trouble) => world.troubles.push(trouble)?,
        Command::File(path, bytes) => world.put_file(path, &bytes)?,
        Command::Folder(path) => world.put_folder(path)?,
        Command::Run(words) => run(alloc, world, out, &words)?,
        Command::Left(change, outcome) => leave(alloc, world, out, change, outcome)?,
        Command::Body(name) => find(alloc, world, out, &name)?,
        Command::Absorb(frame) => absorb(world, out, &frame)?,
        Command::Keep(plain) => keep(world, out, &plain)?,
        Command::Tree => print_tree(alloc, out, &world.folder)?,
    }
    Ok(())
}

/// Runs the program, and prints what came of it.
fn run<W: Write>(
    alloc: Global,
    world: &mut World,
    out: &mut W,
    words: &[String],
) -> Result<(), Stop> {
    let (code, station) = world.run(words)?;
    print_run(alloc, out, code, station)
}

/// Makes the image what a crash leaves, and prints it.
fn leave<W: Write>(
    alloc: Global,
    world: &mut World,
    out: &mut W,
    change: u64,
    outcome: Outcome,
) -> Result<(), Stop> {
    if world.leave(change, outcome)? {
        print_left(alloc, out, &world.image)
    } else {
        writeln!(out, "left none")?;
        Ok(())
    }
}

/// Reads a body from a disk of the image that fails, and then from one that does not, and prints what
/// came of each.
fn find<W: Write>(alloc: Global, world: &World, out: &mut W, name: &Digest) -> Result<(), Stop> {
    let mut failing = failing_disk(alloc, &world.image)?;
    let mut disk = world.disk()?;
    let mut body = Vec::new(alloc);
    let [first, second] = find_twice(alloc, &mut disk, &mut failing, name, &mut body)?;
    print_found(alloc, out, first, &body)?;
    print_found(alloc, out, second, &body)
}

/// Has the image's node absorb a datagram twice, and prints what came of each.
fn absorb<W: Write>(world: &mut World, out: &mut W, frame: &[u8]) -> Result<(), Stop> {
    let [first, second] = world.absorb(frame)?;
    print_absorbed(out, "absorb", first)?;
    print_absorbed(out, "absorb", second)?;
    Ok(())
}

/// Has the image's node keep a piece twice, and prints what came of each.
fn keep<W: Write>(world: &mut World, out: &mut W, plain: &[u8]) -> Result<(), Stop> {
    let [first, second] = world.keep(plain)?;
    print_absorbed(out, "keep", first)?;
    print_absorbed(out, "keep", second)?;
    Ok(())
}

/// Reads a line, and does what it asks for.
fn follow<W: Write>(alloc: Global, world: &mut World, out: &mut W, line: &str) -> Result<(), Stop> {
    if line.is_empty() || line.starts_with('#') {
        return Ok(());
    }
    obey(alloc, world, out, read_command(alloc, line)?)
}

/// Follows all lines of the input, up to one outside of the language, whose number is printed.
fn follow_all<R: Input + Print + AllocGlobal>(rt: &R) -> Result<(), Stop> {
    let alloc = rt.alloc();
    let mut out = BufWriter::new(alloc, io::writer(rt))?;
    let mut world = World::new(alloc);
    let mut number = 0u64;
    for line in BufReader::new(alloc, rt.reader())?.lines(alloc) {
        number = number.saturating_add(1);
        let done = follow(alloc, &mut world, &mut out, line?.as_str());
        if let Err(Stop::Outside) = done {
            writeln!(out, "line {number}")?;
        }
        if done.is_err() {
            out.flush()?;
            return done;
        }
    }
    out.flush()?;
    Ok(())
}

fn main(rt: HostRuntime) -> ExitCode {
    match follow_all(&rt) {
        Ok(()) => ExitCode::SUCCESS,
        Err(_) => ExitCode::FAILURE,
    }
}
