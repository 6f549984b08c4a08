//! The program's run over the machine: one file, one UDP socket, standard output, the clock and the folders.
ghost use Rattle.std.specs.Prelude.{map, string_bytes};
ghost use Rattle.psb_host.specs.HonestFolder.{IsFirst};
ghost use Rattle.psb_host.specs.HonestStation.{IsBegun};
ghost use Rattle.psb.specs.OnMachine.{OnMachine};

use backup_cli::{Status, run};
use psb_host::{HostFolder, HostStation, Start, StartFolder};
use psb_station::{Disk, Folder};
use std::alloc::Global;
use std::fs::{File, Files};
use std::net::Net;
use std::time::Clock;

/// Carries out a command over a machine that was not touched yet. Its file held `S.first` and its folders `T.tree`,
/// whatever these are. Bytes and content are told as long as the system's answers agree with that; what was heard,
/// sent, said and joined is told always.
pub fn run_on_machine<R, Q, S, T>(
    alloc: Global,
    station: &mut HostStation<R, S>,
    folder: &mut HostFolder<Q, T>,
    words: &[String],
) -> Status
where
    R: Files<File = File> + Net + Print + Clock + Drop,
    Q: Files + Alloc + Clone + Drop,
    S: Start,
    T: StartFolder,
    requires begun { IsBegun S.Start.first S.Start.left (⟦<HostStation<R, S> as Disk>⟧.view station.old) }
    requires first { IsFirst T.StartFolder.tree (⟦<HostFolder<Q, T> as Folder>⟧.view folder.old) }

    ensures { OnMachine S.Start.first T.StartFolder.tree (map string_bytes words.now) (⟦<HostStation<R, S> as Disk>⟧.view station.old) (⟦<HostStation<R, S> as Disk>⟧.view station.new)
        (⟦<HostFolder<Q, T> as Folder>⟧.view folder.old) (⟦<HostFolder<Q, T> as Folder>⟧.view folder.new) result }
{
    run(alloc, station, folder, words)
}
