//! What a node makes of an input, before anything of it is written.

ghost use Rattle.std.specs.Prelude.{◌≡◌, ◌≤◌, length, [], ◌∷◌, ◌++◌, option_to_list, Some, None, IfOk};
ghost use Rattle.peer_states.specs.declared.peer_state.Note.TheVariants.{Nothing, Ticked};

use node_letters::{Letter, Outbox};
use peer_states::Note;
use psb_bytes::{Items, Memory, PeerId};
use psb_model::Change;
use std::alloc::Global;
use wire_codec::Dropped;

/// The change that is to be made; what is noted beside it; where the input is a datagram that is dropped, the test
/// that it fails; and the letters that are to be sent once the change is made.
#[derive(Drop)]
pub(crate) struct Reaction {
    pub change: Option<Change>,
    pub note: Note,
    pub dropped: Option<Dropped>,
    pub out: Outbox,
}

/// No letter. Takes no memory.
pub(crate) fn no_letter(alloc: Global) -> Outbox
    ensures { result ≡ [] }
{
    Items::from_vec(Vec::new(alloc))
}

/// One letter.
pub(crate) fn one_letter(alloc: Global, letter: Letter) -> Result<Outbox, Memory>
    ensures { IfOk result (λ out. out ≡ letter ∷ []) }
{
    let mut letters = Vec::new(alloc);
    letters.push(letter)?;
    Ok(Items::from_vec(letters))
}

/// Nothing is made, and nobody is answered.
pub(crate) fn quiet(alloc: Global, dropped: Option<Dropped>) -> Reaction
    ensures change { result.change ≡ None }
    ensures note { result.note ≡ Nothing }
    ensures dropped { result.dropped ≡ dropped }
    ensures out { result.out ≡ [] }
{
    Reaction {
        change: None,
        note: Note::Nothing,
        dropped,
        out: no_letter(alloc),
    }
}

/// A change is made, if there is one, and these letters tell of it.
pub(crate) fn made(change: Option<Change>, out: Outbox) -> Reaction
    ensures change { result.change ≡ change }
    ensures note { result.note ≡ Nothing }
    ensures dropped { result.dropped ≡ None }
    ensures out { result.out ≡ out }
{
    Reaction {
        change,
        note: Note::Nothing,
        dropped: None,
        out,
    }
}

/// This is noted, and nobody is answered.
pub(crate) fn noted(alloc: Global, note: Note) -> Reaction
    ensures change { result.change ≡ None }
    ensures note { result.note ≡ note }
    ensures dropped { result.dropped ≡ None }
    ensures out { result.out ≡ [] }
{
    Reaction {
        change: None,
        note,
        dropped: None,
        out: no_letter(alloc),
    }
}

/// With a tick of a peer, which is noted.
pub(crate) fn ticked(reaction: Reaction, peer: PeerId) -> Reaction
    ensures change { result.change ≡ reaction.change }
    ensures note { result.note ≡ Ticked peer }
    ensures dropped { result.dropped ≡ reaction.dropped }
    ensures out { result.out ≡ reaction.out }
{
    let Reaction {
        change,
        dropped,
        out,
        ..
    } = reaction;
    Reaction {
        change,
        note: Note::Ticked(peer),
        dropped,
        out,
    }
}

/// What is asked of a peer at a tick: the change that begins a probe, if one begins, and the letter that asks, if any
/// does.
#[derive(Drop)]
pub(crate) struct Asking {
    pub change: Option<Change>,
    pub letter: Option<Letter>,
}

/// No change is made, and this letter asks.
pub(crate) fn asks(letter: Option<Letter>) -> Asking
    ensures { result ≡ record { change = None; letter = letter } }
{
    Asking {
        change: None,
        letter,
    }
}

/// Behind a reaction that makes no change: what is asked, and the letter behind the others.
pub(crate) fn with_asking(reaction: Reaction, asking: Asking) -> Result<Reaction, Memory>
    ensures change { IfOk result (λ r. r.change ≡ asking.change) }
    ensures dropped { IfOk result (λ r. r.dropped ≡ reaction.dropped) }
    ensures out { IfOk result (λ r. r.out ≡ reaction.out ++ option_to_list asking.letter) }
    ensures few { IfOk result (λ r. length reaction.out ≤ 1 → length r.out ≤ 2) }
{
    let Asking { change, letter } = asking;
    let Reaction {
        note,
        dropped,
        out,
        ..
    } = with_letter(reaction, letter)?;
    Ok(Reaction {
        change,
        note,
        dropped,
        out,
    })
}

/// With one letter more, if there is one.
pub(crate) fn with_letter(reaction: Reaction, letter: Option<Letter>) -> Result<Reaction, Memory>
    ensures change { IfOk result (λ r. r.change ≡ reaction.change) }
    ensures note { IfOk result (λ r. r.note ≡ reaction.note) }
    ensures dropped { IfOk result (λ r. r.dropped ≡ reaction.dropped) }
    ensures out { IfOk result (λ r. r.out ≡ reaction.out ++ option_to_list letter) }
    ensures few { IfOk result (λ r. length reaction.out ≤ 1 → length r.out ≤ 2) }
{
    let Reaction {
        change,
        note,
        dropped,
        out,
    } = reaction;
    let mut letters = out.into_vec();
    if let Some(letter) = letter {
        letters.push(letter)?;
    }
    Ok(Reaction {
        change,
        note,
        dropped,
        out: Items::from_vec(letters),
    })
}
