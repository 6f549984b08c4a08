//! Fields that changes have, read in turn.
ghost use Rattle.std.specs.Prelude.{◌≡◌, IfOk};
ghost use Rattle.std.specs.Option.{option_map};
ghost use Rattle.byte_fields.specs.Fields.{Takes, ended};
ghost use Rattle.change_codec.specs.Reading.{Answers, flag_at, ticket_at};

use crate::ChangeError;
use byte_fields::{NoField, take_digest, take_u8, take_u32};
use psb_bytes::{Bytes, Cursor, Memory, Ref, Ticket};
use std::alloc::Global;

/// A flag is one byte, 0 or 1.
#[tactic(auto, unfolding(crate::specs::Reading::flag_at))]
pub(crate) fn take_flag(fields: &mut Cursor<'_>) -> Result<bool, NoField>
    ensures { Takes result fields.new (flag_at fields.old) }
{
    let flag = take_u8(fields)?;
    if flag <= 1 {
        Ok(flag == 1)
    } else {
        Err(NoField)
    }
}

#[tactic(auto, unfolding(crate::specs::Reading::ticket_at))]
pub(crate) fn take_ticket(fields: &mut Cursor<'_>) -> Result<Ticket, NoField>
    ensures { Takes result fields.new (ticket_at fields.old) }
{
    let name = take_digest(fields)?;
    let handle = take_digest(fields)?;
    let len = take_u32(fields)?;
    let levels = take_u8(fields)?;
    let reference = Ref { name, handle, len };
    Ok(Ticket { reference, levels })
}

/// What was read, where nothing stands behind it.
pub(crate) fn whole<T: Drop>(fields: &Cursor<'_>, value: T) -> Result<T, ChangeError>
    ensures { Answers result (ended value fields.now) }
{
    if fields.rest().is_empty() {
        Ok(value)
    } else {
        Err(ChangeError::BadHead)
    }
}

/// A copy of a body part that is there.
pub(crate) fn copied(alloc: Global, body: Option<&[u8]>) -> Result<Option<Bytes>, Memory>
    ensures { IfOk result (λ b. b ≡ option_map (λ b. b.now) body.entry) }
{
    match body {
        Some(bytes) => Ok(Some(Bytes::copy(alloc, bytes)?)),
        None => Ok(None),
    }
}
