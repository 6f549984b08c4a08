//! The letters that answer what peers ask for.

ghost use Rattle.std.specs.Prelude.{◌≡◌, ◌≤◌, true, length, Some, if◌then◌else◌, IfOk, IfSome};
ghost use Rattle.psb_bytes.specs.Units.{longest_chunk};
ghost use Rattle.wire_codec.specs.Frames.{datagram, fits};
ghost use Rattle.wire_codec.specs.declared.frame.Frame.TheVariants.{Here};
ghost use Rattle.psb_machine.specs.Replies.{reply_of, is_answerable};

use crate::frames::{accepted, here_of};
use crate::letter::{Letter, letter_to};
use crate::message::Sender;
use claims::ClaimSource;
use psb_bytes::{Digest, Items, LAST_REASON, Memory, PeerId, units_of};
use psb_model::{Change, Refused, may_issue};
use std::alloc::Global;
use wire_codec::{Frame, MOST_BYTES};

/// The frame that answers a change of a peer's deal, None where it can't be spelled.
pub fn reply_to(
    alloc: Global,
    claims: &mut ClaimSource,
    change: &Change,
) -> Result<Option<Frame>, Memory>
    ensures reply { IfOk result (λ o. o ≡ (if is_answerable change.now then Some (reply_of claims.old.seed change.now) else None)) }
    ensures seed { claims.new.seed ≡ claims.old.seed }
    ensures issued { claims.old.issued ≤ claims.new.issued }
    ensures fits { IfOk result (λ o. IfSome o (λ f. fits f ≡ true)) }
{
    match change {
        Change::TookFresh(x) => {
            let units = units_of(x.len);
            if x.len > MOST_BYTES || !may_issue(x.first, units) {
                return Ok(None);
            }
            Ok(Some(accepted(alloc, claims, x.first, units)?))
        }
        Change::Refused(Refused { why, detail, .. }) => {
            if *why < 1 || *why > LAST_REASON {
                return Ok(None);
            }
            Ok(Some(Frame::Refused {
                why: *why,
                detail: *detail,
            }))
        }
        _ => Ok(Some(Frame::Accepted {
            claims: Items::from_vec(Vec::new(alloc)),
        })),
    }
}

/// The letter with a frame that answers one of this sender.
pub fn answer_to(
    alloc: Global,
    frame: &Frame,
    own: PeerId,
    sender: &Sender,
) -> Result<Letter, Memory>
    requires { fits frame.now ≡ true }
    ensures to { IfOk result (λ l. l.to ≡ sender.now.peer) }
    ensures frame { IfOk result (λ l. l.frame ≡ datagram sender.now.key own sender.now.peer sender.now.number frame.now) }
{
    letter_to(alloc, frame, own, sender.peer, sender.number, &sender.key)
}

/// The letter that answers a Get of this sender with the bytes under the name.
pub fn here_to(
    alloc: Global,
    name: &Digest,
    bytes: Vec<u8>,
    own: PeerId,
    sender: &Sender,
) -> Result<Letter, Memory>
    requires { length bytes.items ≤ longest_chunk }
    ensures to { IfOk result (λ l. l.to ≡ sender.now.peer) }
    ensures frame { IfOk result (λ l. l.frame ≡ datagram sender.now.key own sender.now.peer sender.now.number (Here name.now bytes.items)) }
{
    answer_to(alloc, &here_of(*name, bytes), own, sender)
}
