//! The lines, as texts.

ghost use Rattle.std.specs.Prelude.{◌≡◌, IfOk, string_bytes};
ghost use Rattle.said_lines.specs.Lines.{peer_line, loss_word, debt_front, debt_line, turns_line, node_line, snapshot_front, snapshot_line, restored_line};

use psb_bytes::hex_text;
use psb_model::{DebtEntry, Snapshot};
use std::alloc::{AllocError, Global};

/// The line on a peer: units held for it, units that it holds in return, and units of its debt.
pub(crate) fn peer_line(
    alloc: Global,
    id: u32,
    held: u32,
    back: u32,
    debt: u32,
) -> Result<String, AllocError>
    ensures { IfOk result (λ s. string_bytes s ≡ peer_line id held back debt) }
{
    format!(in alloc; "peer {id} held {held} back {back} debt {debt}\n")
}

/// How a row of debt came: a probe failed, or the peer declined it.
fn loss_word(declined: bool) -> &'static str
    ensures { result.now ≡ loss_word declined }
{
    if declined { " declined\n" } else { " failed\n" }
}

/// The line of a row of debt, up to how it came: units that are left of those that were lost, and the
/// number of the change that booked the row.
fn debt_front(alloc: Global, debt: &DebtEntry) -> Result<String, AllocError>
    ensures { IfOk result (λ s. string_bytes s ≡ debt_front debt.now) }
{
    let left = debt.left;
    let units = debt.units;
    let cause = debt.cause;
    format!(in alloc; "debt {left} of {units} change {cause}")
}

/// The line of a row of debt.
pub(crate) fn debt_line(alloc: Global, debt: &DebtEntry) -> Result<String, AllocError>
    ensures { IfOk result (λ s. string_bytes s ≡ debt_line debt.now) }
{
    let mut line = debt_front(alloc, debt)?;
    line.push_str(loss_word(debt.declined))?;
    Ok(line)
}

/// The last line of `serve`: turns made, frames taken and dropped in them, and frames lost, whose
/// sending failed.
pub(crate) fn turns_line(
    alloc: Global,
    turns: u32,
    taken: u64,
    dropped: u64,
    lost: u64,
) -> Result<String, AllocError>
    ensures { IfOk result (λ s. string_bytes s ≡ turns_line turns taken dropped lost) }
{
    format!(in alloc; "turns {turns} taken {taken} dropped {dropped} lost {lost}\n")
}

/// The line of `init`: the id of the node that has begun, and how many peers it has.
pub(crate) fn node_line(alloc: Global, id: u32, peers: usize) -> Result<String, AllocError>
    ensures { IfOk result (λ s. string_bytes s ≡ node_line id peers) }
{
    format!(in alloc; "node {id} peers {peers}\n")
}

/// The line of a kept snapshot, up to its ticket.
fn snapshot_front(alloc: Global, snapshot: &Snapshot) -> Result<String, AllocError>
    ensures { IfOk result (λ s. string_bytes s ≡ snapshot_front snapshot.now) }
{
    let number = snapshot.number;
    let files = snapshot.files;
    let folders = snapshot.folders;
    let bytes = snapshot.bytes;
    let left = snapshot.left;
    format!(in alloc;
        "snapshot {number} files {files} folders {folders} bytes {bytes} left {left} ticket "
    )
}

/// The line of a kept snapshot.
pub(crate) fn snapshot_line(alloc: Global, snapshot: &Snapshot) -> Result<String, AllocError>
    ensures { IfOk result (λ s. string_bytes s ≡ snapshot_line snapshot.now) }
{
    let ticket = match hex_text(alloc, &snapshot.ticket.bytes()) {
        Ok(ticket) => ticket,
        Err(_) => return Err(AllocError),
    };
    let mut line = snapshot_front(alloc, snapshot)?;
    line.push_str(ticket.as_str())?;
    line.push_str("\n")?;
    Ok(line)
}

/// The line of a snapshot that was restored.
pub(crate) fn restored_line(
    alloc: Global,
    files: u32,
    folders: u32,
    bytes: u64,
) -> Result<String, AllocError>
    ensures { IfOk result (λ s. string_bytes s ≡ restored_line files folders bytes) }
{
    format!(in alloc; "restored files {files} folders {folders} bytes {bytes}\n")
}
