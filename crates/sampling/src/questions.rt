//! The question that is asked before buddies are chosen.

ghost use Rattle.std.specs.Prelude.{◌≡◌, ◌==◌, not, length, IfOk};
ghost use Rattle.psb_machine.specs.Sampling.{salt_of, question_of, keeps_question};

use crate::wanted::wanted_names;
use abstracts::abstract_of;
use psb_bytes::{Digest, Memory};
use psb_digest::{mask, sha_two};
use psb_ledger::Ledger;
use psb_machine::Question;
use psb_model::Change;
use std::alloc::Global;

/// No frame asks for more names.
const MOST_ASKED: u32 = 32;

/// The salt that a change of the node gives, with which a question goes out, and the nonce of a probe: the first 32 bytes
/// of the keystream of its words.
#[tactic(auto, unfolding(psb_digest::specs::Words::words_key))]
pub fn salt_of(seed: &Digest, change: u64) -> Digest
    ensures { result ≡ salt_of seed.now change }
{
    let mut salt = Digest([0; 32]);
    mask(&sha_two(b"psb words", &seed.0), change, &mut salt.0);
    salt
}

/// What peers are to be asked: the wanted names that come first under the salt of the latest snapshot. None exactly
/// where no snapshot was made, or no node begun. It hashes each wanted name once.
pub fn question_of(alloc: Global, ledger: &Ledger) -> Result<Option<Question>, Memory>
    ensures { IfOk result (λ o. o ≡ question_of ledger.now.state) }
{
    let (Some(settings), Some(mark)) = (ledger.settings(), ledger.snapped()) else {
        return Ok(None);
    };
    let wanted = wanted_names(alloc, ledger)?;
    let salt = salt_of(&settings.seed, mark.change);
    let names = abstract_of(alloc, wanted.as_slice(), &salt, MOST_ASKED)?;
    Ok(Some(Question {
        number: mark.change,
        salt,
        names,
    }))
}

/// Whether some name is asked for.
pub fn has_names(question: &Question) -> bool
    ensures { result ≡ not (length question.now.names == 0) }
{
    !question.names.as_slice().is_empty()
}

/// Whether the same names are wanted after a change, under the same salt. After one that keeps an own chunk or may
/// give one up it can't be told without looking.
pub fn keeps_question(change: &Change) -> bool
    ensures { result ≡ keeps_question change.now }
{
    !matches!(
        change,
        Change::Begun(_)
            | Change::Kept(_)
            | Change::Snapped(_)
            | Change::Forgot(_)
            | Change::Settled(_)
            | Change::Turned(_)
            | Change::Discarded(_)
    )
}
