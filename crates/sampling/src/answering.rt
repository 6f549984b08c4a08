//! What peers are told of the names that are held, and what they tell.

ghost use Rattle.std.specs.Prelude.{◌≡◌, ◌≤◌, length};
ghost use Rattle.psb_model.specs.State.{is_held};
ghost use Rattle.psb_machine.specs.Sampling.{bits_of, is_answer_to};

use psb_bytes::Digest;
use psb_ledger::Ledger;
use psb_machine::Question;
use wire_codec::NamesView;

/// Which of the names a body is held under: bit j, counted from the least, is 1 where one is under name j.
pub fn sample_of(ledger: &Ledger, names: &NamesView<'_>) -> u32
    requires few { length names.now ≤ 32 }
    ensures { result ≡ bits_of (is_held ledger.now.state) names.now }
{
    let mut bits = 0;
    for j in (0..names.len()).rev() {
        bits = 2 * bits + u32::from(ledger.is_held(&names.at(j)));
    }
    bits
}

/// Whether a sample has the salt of the question, and no bit above its names.
pub fn is_answer_to(question: &Question, salt: &Digest, bits: u32) -> bool
    requires few { length question.now.names ≤ 32 }
    ensures { result ≡ is_answer_to question.now salt.now bits }
{
    question.salt == *salt && u64::from(bits) < 1 << question.names.as_slice().len()
}
