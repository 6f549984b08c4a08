//! The bytes of objects, each read or made into one buffer.

ghost use Rattle.std.specs.Prelude.{◌≡◌, ◌⊎◌, List, true, false, IfOk, OnOk, OnErr};
ghost use Rattle.psb_station.specs.Span.{Shows, Tells_bytes, Looked};
ghost use Rattle.node_journal.specs.Entry.{Entry};
ghost use Rattle.psb_model.specs.State.{is_held};
ghost use Rattle.psb_model.specs.Needed.{last_brought};
ghost use Rattle.psb_model.specs.History.{state};
ghost use Rattle.psb_model.specs.declared.change.Change.{Change};
ghost use Rattle.node_history.specs.Stands.{AreDecoded};
ghost use Rattle.node_history.specs.Names.{KnowsNames, AreThere};
ghost use Rattle.node_facts.specs.Probed.{IsRead};

use chunk_store::{Store, StoreError};
use claims::ClaimSource;
use node_history::ReadFault;
use node_journal::Log;
use psb_bytes::{Digest, Memory};
use psb_station::Disk;

/// Reads the bytes that are held under a name into `into`, in place of what that held, and answers whether any are.
pub(crate) fn read_chunk<L: Log, D: Disk>(
    log: &mut L,
    disk: &mut D,
    names: &Store,
    name: &Digest,
    into: &mut Vec<u8>,
) -> Result<bool, ReadFault>
    requires whole { L.is_broken log.old ≡ false }
    requires there { AreThere names.now (L.size log.old) (L.keeps_body log.old) }
    ensures bytes { IfOk result (λ there. Tells_bytes (D.view disk.new) → (h : List Change) (es : List Entry) → KnowsNames names.now h → AreDecoded h es
        → Shows (L.holds log.old es) (D.view disk.old) → is_held (state h) name.now ≡ true → IsRead there into.new.items (last_brought name.now h)) }

    // Whatever the disk tells, there are some where the name is held.
    ensures some { IfOk result (λ there. (h : List Change) → KnowsNames names.now h → is_held (state h) name.now ≡ true → there ≡ true) }
    ensures log { log.new ≡ log.old }
    ensures looked { Looked (result ≡ Err ReadFault.DiskFault) (D.view disk.old) (D.view disk.new) }
    ensures reads { (D.view disk.new).write_faults ≡ (D.view disk.old).write_faults }
    ensures only { OnErr result ((result ≡ Err ReadFault.DiskFault) ⊎ (result ≡ Err ReadFault.Memory)) }
{
    match names.read(log, disk, name, into) {
        Ok(there) => Ok(there),
        Err(StoreError::DiskFault) => Err(ReadFault::DiskFault),
        Err(StoreError::Memory) => Err(ReadFault::Memory),
        Err(StoreError::Already | StoreError::Clash(_) | StoreError::Altered) => unreachable!(),
    }
}

/// Walks over the claims in front of this one, as far as they were issued. Walked claims are fast to make. Where memory
/// runs out, those that were not are right but slow.
pub(crate) fn walk_to(claims: &mut ClaimSource, number: u32)
    ensures seed { claims.new.seed ≡ claims.old.seed }
    ensures issued { claims.new.issued ≡ claims.old.issued }
{
    let _ = claims.walk(number.saturating_sub(claims.walked()));
}

/// Puts these bytes into `into`, in place of what that held.
pub(crate) fn put(bytes: &[u8], into: &mut Vec<u8>) -> Result<(), Memory>
    ensures { OnOk result (into.new.items ≡ bytes.now) }
{
    into.clear();
    into.extend_from_slice(bytes)?;
    Ok(())
}
