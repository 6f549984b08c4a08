//! A choice among all entries.

ghost use Rattle.std.specs.Prelude.{◌≡◌, ℕ, List, length, map, true, IfOk, OnOk};
ghost use Rattle.psb_digest.specs.Words.{words_key, own_word};
ghost use Rattle.psb_model.specs.declared.entries.InEntry.{InEntry};
ghost use Rattle.psb_model.specs.State.{in_key};
ghost use Rattle.psb_model.specs.Discards.{picks};
ghost use Rattle.discard_policy.specs.Grades.{every, is_grade};
ghost use Rattle.discard_policy.specs.Drawing.{past, drawn};
ghost use Rattle.discard_policy.specs.Choices.{weighed, IsWithin};

use crate::grades::Grade;
use crate::picking::Picker;
use psb_bytes::{Memory, Object, ObjectList};
use psb_digest::Words;
use std::alloc::Global;

/// The objects that a discard takes, of entries in object order, each with its units of 512 bytes. Each entry
/// uses up a word, taken or not. Where memory runs out, some of the words are drawn.
pub fn choose(
    alloc: Global,
    words: &mut Words,
    entries: &[(Object, u32)],
    grade: Grade,
    debt: u32,
) -> Result<ObjectList, Memory>
    requires { is_grade grade ≡ true }
    // For the model's entries that the pairs stand for, whatever their states.
    ensures chosen { (es : List InEntry) → map weighed es ≡ entries.now
        → IfOk result (λ l. l ≡ map in_key (picks (drawn words.old) (every grade) 0 debt 1048576 es)) }
    // From the first of the words that a node's change of this number uses.
    ensures own { (es : List InEntry) (seed : List ℕ) (change : ℕ) → map weighed es ≡ entries.now
        → words.old ≡ record { key = words_key seed; stream = change; place = 0 }
        → IfOk result (λ l. l ≡ map in_key (picks (own_word seed change) (every grade) 0 debt 1048576 es)) }
    ensures within { IfOk result (λ l. IsWithin entries.now debt l) }
    ensures words { OnOk result (words.new ≡ past words.old (length entries.now)) }
{
    let mut picker = Picker::new(grade, debt);
    let mut chosen = Vec::new(alloc);
    for (object, units) in entries {
        if picker.draw(words, *units) {
            chosen.push(*object)?;
        }
    }
    Ok(ObjectList::from_vec(chosen))
}
