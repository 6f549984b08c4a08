//! The texts of a snapshot: its lists of refs, and its skeleton.
ghost use Rattle.std.specs.Prelude.{◌≡◌, ◌++◌, ◌∷◌, ◌<◌, ◌≤◌, [], ℕ, List, length, nat_lt, IfOk, IfErr, OnOk};
ghost use Rattle.node_serve.specs.Spans.{IsUp};
ghost use Rattle.skeleton.specs.declared.limits.TheConstants.{MOST_TEXT_BYTES};
ghost use Rattle.skeleton.specs.Entries.{total};
ghost use Rattle.skeleton.specs.Reading.{skeleton_of};
ghost use Rattle.skeleton.specs.Texts.{skeleton_text};
ghost use Rattle.snapshot_restore.specs.Faults.{Faults, IsOfText, failed};
ghost use Rattle.snapshot_restore.specs.Fetching.{Takes};
ghost use Rattle.snapshot_restore.specs.Reading.{IsRead, IsListRead, IsTextRead};
ghost use Rattle.snapshot_restore.specs.StoppedTexts.{StopsText, StopsList, StopsLevels};
ghost use Rattle.snapshot_restore.specs.Taken.{Taken, taken_text};

use crate::RestoreFault;
use crate::fetching::fetch;
use crate::waiting::Waiting;
use node_core::Node;
use node_journal::Log;
use psb_bytes::{Ref, RefList};
use psb_station::Station;
use skeleton::{MOST_TEXT_BYTES, SkelError, SkelFault, Skeleton, read_refs, read_skeleton};
use std::alloc::Global;

/// Whether a text of these refs has more bytes than a text may have.
fn is_too_long(refs: &[Ref]) -> bool
    ensures { result ≡ nat_lt MOST_TEXT_BYTES (total refs.now) }
{
    let mut left = MOST_TEXT_BYTES;
    for reference in refs {
        let len = reference.len as usize;
        if len > left {
            return true;
        }
        left -= len;
    }
    false
}

/// The text of some refs.
fn fetch_text<L: Log, S: Station>(
    alloc: Global,
    node: &mut Node<L>,
    station: &mut S,
    waiting: &mut Waiting,
    refs: &[Ref],
) -> Result<Vec<u8>, RestoreFault>
    requires up { IsUp L.holds L.size L.keeps_body L.is_broken node.old (S.view station.old) }
    ensures read { IfOk result (λ text. (ts : List Taken) × IsRead refs.now ts × (text.items ≡ taken_text ts)
        × Takes L.holds L.stands L.is_broken waiting.old waiting.new node.old node.new (S.view station.old) (S.view station.new) ts) }
    ensures stopped { IfErr result (λ e. StopsText L.holds L.stands L.is_broken waiting.old waiting.new node.old node.new (S.view station.old) (S.view station.new) refs.now e) }
    ensures up { OnOk result (IsUp L.holds L.size L.keeps_body L.is_broken node.new (S.view station.new)) }
    ensures faults { Faults (failed result) (S.view station.old) (S.view station.new) }
    ensures only { IfErr result IsOfText }
{
    if is_too_long(refs) {
        return Err(RestoreFault::BadSkeleton {
            fault: SkelFault::TooLong,
            place: 0,
        });
    }
    let mut text = Vec::new(alloc);
    for reference in refs {
        let plain = match fetch(alloc, node, station, waiting, reference) {
            Ok(plain) => plain,
            Err(fault) => return Err(fault),
        };
        match text.extend_from_slice(&plain) {
            Ok(()) => {}
            Err(_) => return Err(RestoreFault::Memory),
        }
    }
    Ok(text)
}

/// The refs that the text of some refs lists.
fn fetch_refs<L: Log, S: Station>(
    alloc: Global,
    node: &mut Node<L>,
    station: &mut S,
    waiting: &mut Waiting,
    refs: &[Ref],
) -> Result<RefList, RestoreFault>
    requires up { IsUp L.holds L.size L.keeps_body L.is_broken node.old (S.view station.old) }
    ensures read { IfOk result (λ next. (ts : List Taken) × IsListRead refs.now ts next
        × Takes L.holds L.stands L.is_broken waiting.old waiting.new node.old node.new (S.view station.old) (S.view station.new) ts) }
    ensures stopped { IfErr result (λ e. StopsList L.holds L.stands L.is_broken waiting.old waiting.new node.old node.new (S.view station.old) (S.view station.new) refs.now e) }
    ensures up { OnOk result (IsUp L.holds L.size L.keeps_body L.is_broken node.new (S.view station.new)) }
    ensures faults { Faults (failed result) (S.view station.old) (S.view station.new) }
    ensures only { IfErr result IsOfText }
{
    let text = match fetch_text(alloc, node, station, waiting, refs) {
        Ok(text) => text,
        Err(fault) => return Err(fault),
    };
    match read_refs(alloc, &text) {
        Ok(next) => Ok(next),
        Err(SkelError::Bad { fault, place }) => Err(RestoreFault::BadSkeleton { fault, place }),
        Err(SkelError::Memory) => Err(RestoreFault::Memory),
    }
}

/// The skeleton that the text of some refs spells.
fn fetch_last<L: Log, S: Station>(
    alloc: Global,
    node: &mut Node<L>,
    station: &mut S,
    waiting: &mut Waiting,
    refs: &[Ref],
) -> Result<Skeleton, RestoreFault>
    requires up { IsUp L.holds L.size L.keeps_body L.is_broken node.old (S.view station.old) }
    ensures read { IfOk result (λ s. (ts : List Taken) × IsRead refs.now ts × (skeleton_of (taken_text ts) ≡ Ok s)
        × Takes L.holds L.stands L.is_broken waiting.old waiting.new node.old node.new (S.view station.old) (S.view station.new) ts) }
    ensures short { IfOk result (λ s. length (skeleton_text s) ≤ MOST_TEXT_BYTES) }
    ensures stopped { IfErr result (λ e. StopsLevels L.holds L.stands L.is_broken waiting.old waiting.new node.old node.new (S.view station.old) (S.view station.new) 0 refs.now e) }
    ensures up { OnOk result (IsUp L.holds L.size L.keeps_body L.is_broken node.new (S.view station.new)) }
    ensures faults { Faults (failed result) (S.view station.old) (S.view station.new) }
    ensures only { IfErr result IsOfText }
{
    let text = match fetch_text(alloc, node, station, waiting, refs) {
        Ok(text) => text,
        Err(fault) => return Err(fault),
    };
    match read_skeleton(alloc, &text) {
        Ok(skeleton) => Ok(skeleton),
        Err(SkelError::Bad { fault, place }) => Err(RestoreFault::BadSkeleton { fault, place }),
        Err(SkelError::Memory) => Err(RestoreFault::Memory),
    }
}

/// The skeleton behind so many lists of refs, of which these are the first.
pub(crate) fn fetch_skeleton<L: Log, S: Station>(
    alloc: Global,
    node: &mut Node<L>,
    station: &mut S,
    waiting: &mut Waiting,
    refs: &[Ref],
    levels: u8,
) -> Result<Skeleton, RestoreFault>
    requires up { IsUp L.holds L.size L.keeps_body L.is_broken node.old (S.view station.old) }
    ensures read { IfOk result (λ s. (ts : List Taken) × (text : List ℕ) × IsTextRead levels refs.now ts text × (skeleton_of text ≡ Ok s)
        × Takes L.holds L.stands L.is_broken waiting.old waiting.new node.old node.new (S.view station.old) (S.view station.new) ts) }
    ensures short { IfOk result (λ s. length (skeleton_text s) ≤ MOST_TEXT_BYTES) }
    ensures stopped { IfErr result (λ e. StopsLevels L.holds L.stands L.is_broken waiting.old waiting.new node.old node.new (S.view station.old) (S.view station.new) levels refs.now e) }
    ensures up { OnOk result (IsUp L.holds L.size L.keeps_body L.is_broken node.new (S.view station.new)) }
    ensures faults { Faults (failed result) (S.view station.old) (S.view station.new) }
    ensures only { IfErr result IsOfText }
{
    if levels == 0 {
        return fetch_last(alloc, node, station, waiting, refs);
    }
    let next = match fetch_refs(alloc, node, station, waiting, refs) {
        Ok(next) => next,
        Err(fault) => return Err(fault),
    };
    fetch_skeleton(alloc, node, station, waiting, next.as_slice(), levels - 1)
}
