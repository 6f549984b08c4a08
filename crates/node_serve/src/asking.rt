//! A body that is asked for.

ghost use Rattle.std.specs.Prelude.{◌≡◌, Some, true, IfOk, OnErr};
ghost use Rattle.psb_station.specs.Span.{Tells_bytes};
ghost use Rattle.psb_settings.specs.declared.settings.Settings.{Settings};
ghost use Rattle.psb_model.specs.History.{state};
ghost use Rattle.psb_machine.specs.Machine.{Situation};
ghost use Rattle.node_core.specs.Stored.{Knows, Stored};
ghost use Rattle.node_serve.specs.Asks.{get_steps, only_lost};
ghost use Rattle.node_serve.specs.Spans.{Counts, Fed};
ghost use Rattle.node_serve.specs.Turns.{OnlySends};

use crate::sending::send_all;
use node_core::{Fault, Node};
use node_journal::Log;
use psb_bytes::Digest;
use psb_station::Station;

/// Sends a Get of the bytes under a name to each peer, in the order of the settings, and answers how many
/// are lost: those that could not be sent.
pub fn ask<L: Log, S: Station>(node: &Node<L>, station: &mut S, name: &Digest) -> Result<u32, Fault>
    requires known { (n : Situation) × Knows node.now n }
    ensures asked { IfOk result (λ lost. Tells_bytes (S.view station.new) → (n : Situation) (settings : Settings) → Knows node.now n → (state n.history).settings ≡ Some settings
        → Stored L.holds node.now n.history (S.view station.old)
        → Fed L.holds L.stands L.is_broken node.now node.now (S.view station.old) (S.view station.new) n (get_steps settings name.now) (Some (only_lost lost)) true) }
    ensures only_sends { OnlySends (S.view station.old) (S.view station.new) }
    ensures tells { Tells_bytes (S.view station.new) → Tells_bytes (S.view station.old) }
    ensures counts { Counts (S.view station.old) (S.view station.new) }
    ensures steady { (S.view station.new).disk_faults ≡ (S.view station.old).disk_faults }

    // Memory is taken before the first Get is sent.
    ensures untouched { OnErr result (station.new ≡ station.old) }
    ensures only { OnErr result (result ≡ Err Fault.Memory) }
{
    let letters = match node.get_frames(name) {
        Ok(letters) => letters,
        Err(fault) => return Err(fault),
    };
    Ok(send_all(station, letters.as_slice()))
}
