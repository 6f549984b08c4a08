ghost use Rattle.std.specs.Prelude.{◌≡◌, [], true, unwrap_or, IfOk, IfErr};
ghost use Rattle.std.specs.Option.{option_map};
ghost use Rattle.psb_model.specs.Grammar.{are_bytes};
ghost use Rattle.change_codec.specs.declared.decode.ChangeError.TheVariants.{BadHead, Memory as NoMemory};
ghost use Rattle.change_codec.specs.Reading.{Answers, change_by, if_it_goes, read_change};
ghost use Rattle.change_codec.specs.Records.{IsRead, NoneIsRead};

use crate::deals::proposed;
use crate::grammar::goes_with;
use crate::kinds::{
    asked, begun, chose, declined, discarded, failed, forgot, kept, let_go, let_go_back, passed,
    refused, replaced, settled, snapped, took_fresh, took_swap, turned,
};
use byte_fields::NoField;
use psb_bytes::{Cursor, Memory};
use psb_model::Change;
use std::alloc::{AllocError, AllocFailed, Global};
use thiserror::Error;

/// Why no change was read.
#[derive(Clone, Copy, PartialEq, Eq, Debug, Error)]
pub enum ChangeError {
    /// No change has this record.
    #[error("no change has this record")]
    BadHead,
    /// Memory ran out.
    #[error("no memory")]
    Memory,
}

impl From<NoField> for ChangeError {
    ghost from_gives = { λ _ e. e ≡ BadHead };

    fn from(_error: NoField) -> ChangeError {
        ChangeError::BadHead
    }
}

impl From<Memory> for ChangeError {
    ghost from_gives = { λ _ e. e ≡ NoMemory };

    fn from(_error: Memory) -> ChangeError {
        ChangeError::Memory
    }
}

impl From<AllocError> for ChangeError {
    ghost from_gives = { λ _ e. e ≡ NoMemory };

    fn from(_error: AllocError) -> ChangeError {
        ChangeError::Memory
    }
}

impl<T: Drop> From<AllocFailed<T>> for ChangeError {
    ghost from_gives = { λ _ e. e ≡ NoMemory };

    fn from(_error: AllocFailed<T>) -> ChangeError {
        ChangeError::Memory
    }
}

/// The change of this kind.
#[tactic(auto, unfolding(crate::specs::Reading::change_by))]
fn change_of(
    alloc: Global,
    kind: u8,
    fields: &mut Cursor<'_>,
    body: Option<&[u8]>,
) -> Result<Change, ChangeError>
    ensures { Answers result (change_by kind fields.old (option_map (λ b. b.now) body.entry)) }
{
    match kind {
        1 => begun(alloc, fields, body),
        2 => kept(alloc, fields, body),
        3 => snapped(alloc, fields),
        4 => forgot(fields),
        5 => took_fresh(alloc, fields, body),
        6 => took_swap(alloc, fields, body),
        7 => let_go(alloc, fields),
        8 => let_go_back(alloc, fields, body),
        9 => replaced(alloc, fields, body),
        10 => refused(fields),
        11 => proposed(alloc, fields),
        12 => settled(alloc, fields, body),
        13 => turned(fields),
        14 => asked(alloc, fields),
        15 => passed(alloc, fields),
        16 => failed(alloc, fields),
        17 => declined(alloc, fields),
        18 => discarded(alloc, fields),
        19 => chose(alloc, fields),
        _ => Err(ChangeError::BadHead),
    }
}

/// The change, where it is in the grammar and goes with its body part.
fn checked(alloc: Global, change: Change, part: &[u8]) -> Result<Change, ChangeError>
    ensures { Answers result (if_it_goes part.now change) }
{
    if goes_with(alloc, part, &change)? {
        Ok(change)
    } else {
        Err(ChangeError::BadHead)
    }
}

/// The change that is read from a record. `part` is its body, or none where that was given up.
#[tactic(auto, unfolding(crate::specs::Reading::read_change))]
fn read(alloc: Global, head: &[u8], body: Option<&[u8]>, part: &[u8]) -> Result<Change, ChangeError>
    requires { part.now ≡ unwrap_or (option_map (λ b. b.now) body) [] }
    ensures change { Answers result (read_change head.now (option_map (λ b. b.now) body.entry)) }
    ensures bytes { are_bytes (option_map (λ b. b.now) body.entry) ≡ true }
{
    let Some((kind, fields)) = head.split_first() else {
        return Err(ChangeError::BadHead);
    };
    let change = change_of(alloc, *kind, &mut Cursor::new(fields), body)?;
    checked(alloc, change, part)
}

/// The change that has this head and this body. `body` is None for a body that was given up. Reads
/// each byte once. The memory that it takes is that of the change, and while it runs that of a tree
/// of the objects that the change lists.
pub fn decode_change(alloc: Global, head: &[u8], body: Option<&[u8]>) -> Result<Change, ChangeError>
    ensures ok { IfOk result (λ c. IsRead c head.now (option_map (λ b. b.now) body.entry)) }
    ensures bad { IfErr result (λ e. e ≡ BadHead → NoneIsRead head.now (option_map (λ b. b.now) body.entry)) }
{
    let part = body.unwrap_or(&[]);
    read(alloc, head, body, part)
}
