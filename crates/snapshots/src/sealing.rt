//! What opens a text: the refs of its pieces.
ghost use Rattle.std.specs.Prelude.{◌≡◌, ◌≤◌, ◌+◌, length, IfOk};
ghost use Rattle.psb_bytes.specs.Units.{longest_chunk};
ghost use Rattle.convergent_seal.specs.Sealing.{sealed_ref};
ghost use Rattle.rolling_chunks.specs.Laws.{part};
ghost use Rattle.snapshots.specs.Tickets.{refs_of_text};

use convergent_seal::seal;
use psb_bytes::{Items, Memory, Ref, RefList};
use rolling_chunks::{Span, cut_all};
use std::alloc::Global;

/// The ref of the piece that a span of a text holds.
fn ref_of(alloc: Global, text: &[u8], span: &Span) -> Result<Ref, Memory>
    requires inside { span.now.start + span.now.len ≤ length text.now }
    requires some { 1 ≤ span.now.len }
    requires short { span.now.len ≤ longest_chunk }
    ensures { IfOk result (λ r. r ≡ sealed_ref (part text.now span.now)) }
{
    let sealed = seal(alloc, &text[span.start..span.start + span.len])?;
    Ok(*sealed.reference())
}

/// Cuts a text by its content, seals each piece, and answers what opens each, in order. The sealed
/// bytes are let go.
pub fn refs_of_text(alloc: Global, text: &[u8]) -> Result<RefList, Memory>
    ensures { IfOk result (λ refs. refs ≡ refs_of_text text.now) }
{
    let spans = cut_all(alloc, text)?;
    let mut refs = Vec::new(alloc);
    for span in spans.as_slice() {
        refs.push(ref_of(alloc, text, span)?)?;
    }
    Ok(Items::from_vec(refs))
}
