//! The question that is asked before buddies are chosen, once it was worked out.

ghost use Rattle.std.specs.Prelude.{◌≡◌, ◌⊎◌, true, None};
ghost use Rattle.psb_machine.specs.Sampling.{keeps_question};

use psb_model::Change;
use sampling::{Question, keeps_question};

/// Drops the question, where a change may have made another of it.
pub(crate) fn note_question(question: &mut Option<Question>, change: &Change)
    ensures { ((question.new ≡ question.old) × (keeps_question change.now ≡ true)) ⊎ (question.new ≡ None) }
{
    if !keeps_question(change) {
        *question = None;
    }
}
