//! The frame that answered a change, made again from its record.

ghost use Rattle.std.specs.Prelude.{◌≡◌, ◌≤◌, ◌<◌, ◌⊎◌, false, true, List, slice_get, IfOk, IfSome, OnErr};
ghost use Rattle.psb_station.specs.Span.{Shows, Tells_bytes, Looked};
ghost use Rattle.node_journal.specs.Entry.{Entry};
ghost use Rattle.wire_codec.specs.Frames.{fits};
ghost use Rattle.node_facts.specs.Again.{IsAnswerOf};

use change_codec::{ChangeError, decode_change};
use claims::ClaimSource;
use node_history::ReadFault;
use node_journal::Log;
use node_letters::reply_to;
use psb_station::Disk;
use std::alloc::Global;
use wire_codec::Frame;

/// The frame that answers the change with this head, None where it is no change that can be answered.
fn reply_to_head(
    alloc: Global,
    claims: &mut ClaimSource,
    head: &[u8],
) -> Result<Option<Frame>, ReadFault>
    ensures answer { IfOk result (λ o. IsAnswerOf o claims.old.seed head.now) }
    ensures seed { claims.new.seed ≡ claims.old.seed }
    ensures issued { claims.old.issued ≤ claims.new.issued }
    ensures fits { IfOk result (λ o. IfSome o (λ f. fits f ≡ true)) }
    ensures only { OnErr result (result ≡ Err ReadFault.Memory) }
{
    let change = match decode_change(alloc, head, None) {
        Ok(change) => change,
        Err(ChangeError::BadHead) => return Ok(None),
        Err(ChangeError::Memory) => return Err(ReadFault::Memory),
    };
    Ok(reply_to(alloc, claims, &change)?)
}

/// The frame that answered the change of this number, made again from its record. None where the
/// record is no change that can be answered.
pub fn reply_again<L: Log, D: Disk>(
    alloc: Global,
    log: &mut L,
    disk: &mut D,
    claims: &mut ClaimSource,
    number: u64,
) -> Result<Option<Frame>, ReadFault>
    requires whole { L.is_broken log.old ≡ false }
    requires below { number < L.size log.old }
    ensures answer { IfOk result (λ o. Tells_bytes (D.view disk.new) → (es : List Entry) → Shows (L.holds log.old es) (D.view disk.old)
        → IfSome (slice_get es number) (λ e. IsAnswerOf o claims.old.seed e.head)) }
    ensures seed { claims.new.seed ≡ claims.old.seed }
    ensures issued { claims.old.issued ≤ claims.new.issued }
    ensures fits { IfOk result (λ o. IfSome o (λ f. fits f ≡ true)) }
    ensures log { log.new ≡ log.old }
    ensures looked { Looked (result ≡ Err ReadFault.DiskFault) (D.view disk.old) (D.view disk.new) }
    ensures reads { (D.view disk.new).write_faults ≡ (D.view disk.old).write_faults }
    ensures only { OnErr result ((result ≡ Err ReadFault.DiskFault) ⊎ (result ≡ Err ReadFault.Memory)) }
{
    let mut head = Vec::new(alloc);
    log.head(disk, number, &mut head)?;
    reply_to_head(alloc, claims, &head)
}
