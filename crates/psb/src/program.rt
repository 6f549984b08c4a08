//! The program, from the words that it was given to the code that ends the process.
ghost use Rattle.std.specs.Prelude.{◌≡◌, ◌<◌, ◌∷◌, [], List, ℕ, drop, length, map, string_bytes};
ghost use Rattle.std.specs.Process.{exit_status};
ghost use Rattle.said_lines.specs.Status.{code_of};

use crate::machine::run_on_machine;
use backup_cli::Status;
use psb_host::{HostFolder, HostStation, Start, StartFolder};
use psb_station::{Disk, Folder};
use std::alloc::{AllocError, Global};
use std::fs::{File, Files};
use std::net::Net;
use std::process::ExitCode;
use std::time::Clock;

/// The words behind the program's own name: DISK, and those behind that. With no DISK there are no words either,
/// and no words are no command.
fn disk_and_words(alloc: Global, mut given: Vec<String>) -> (String, Vec<String>)
    ensures none { length given.items < 2 → string_bytes result.0 ≡ [] }
    ensures disk { (name disk : List ℕ) (rest : List (List ℕ)) → map string_bytes given.items ≡ name ∷ disk ∷ rest → string_bytes result.0 ≡ disk }
    ensures words { map string_bytes result.1.items ≡ drop 2 (map string_bytes given.items) }
{
    if given.len() < 2 {
        return (String::new(alloc), Vec::new(alloc));
    }
    given.remove(0);
    let disk = given.remove(0);
    (disk, given)
}

/// The exit code that a status ends the program with.
pub fn exit_code(status: Status) -> ExitCode
    ensures { exit_status result ≡ code_of status }
{
    ExitCode::from(status.code())
}

/// A machine that the program may run over, and the words of its command.
#[derive(Drop)]
pub struct Program<'a, R: Files<File = File>, S: Start, T: StartFolder> {
    alloc: Global,
    station: HostStation<&'a R, S>,
    folder: HostFolder<&'a R, T>,
    words: Vec<String>,
}

impl<'a, R, S, T> Program<'a, R, S, T>
where
    R: Files<File = File> + Net + Print + Clock + AllocGlobal,
    S: Start,
    T: StartFolder,
{
    ghost use Rattle.std.specs.Prelude.{IfOk};
    ghost use Rattle.psb_host.specs.HonestFolder.{IsFirst};
    ghost use Rattle.psb_host.specs.HonestStation.{IsBegun};
    ghost use Rattle.psb_host.specs.OwnPaths.{disk_of, left_out_of};
    ghost use Rattle.psb.specs.OnMachine.{OnMachine};
    ghost use Rattle.said_lines.specs.declared.status.Status.{Status};

    /// For all words that were given, the program's own name in front. The node's file is at DISK, the second of
    /// them, and is no part of any folder. Nothing is opened yet.
    pub fn new(
        rt: &'a R,
        file: S,
        tree: T,
        given: Vec<String>,
    ) -> Result<Program<'a, R, S, T>, AllocError>
        ensures begun { IfOk result (λ p. IsBegun S.Start.first S.Start.left (⟦<HostStation<&'a R, S> as Disk>⟧.view p.station)) }
        ensures first { IfOk result (λ p. IsFirst T.StartFolder.tree (⟦<HostFolder<&'a R, T> as Folder>⟧.view p.folder)) }
        ensures disk { IfOk result (λ p. (name disk : List ℕ) (rest : List (List ℕ)) → map string_bytes given.items ≡ name ∷ disk ∷ rest → disk_of p.station ≡ disk) }
        ensures left_out { IfOk result (λ p. left_out_of p.folder ≡ disk_of p.station) }
        ensures words { IfOk result (λ p. map string_bytes p.words.items ≡ drop 2 (map string_bytes given.items)) }
    {
        let alloc = rt.alloc();
        let (disk, words) = disk_and_words(alloc, given);
        let left_out = disk.clone()?;
        Ok(Program {
            alloc,
            station: HostStation::new(alloc, rt, disk, file),
            folder: HostFolder::new(alloc, rt, left_out, tree),
            words,
        })
    }

    /// Carries out the command, and answers the code of its status.
    pub fn run(&mut self) -> ExitCode
        requires begun { IsBegun S.Start.first S.Start.left (⟦<HostStation<&'a R, S> as Disk>⟧.view self.old.station) }
        requires first { IsFirst T.StartFolder.tree (⟦<HostFolder<&'a R, T> as Folder>⟧.view self.old.folder) }
        ensures { (status : Status) × (exit_status result ≡ code_of status)
            × OnMachine S.Start.first T.StartFolder.tree (map string_bytes self.old.words.items) (⟦<HostStation<&'a R, S> as Disk>⟧.view self.old.station) (⟦<HostStation<&'a R, S> as Disk>⟧.view self.new.station)
            (⟦<HostFolder<&'a R, T> as Folder>⟧.view self.old.folder) (⟦<HostFolder<&'a R, T> as Folder>⟧.view self.new.folder) status }
    {
        let status = run_on_machine(self.alloc, &mut self.station, &mut self.folder, &self.words);
        exit_code(status)
    }
}
