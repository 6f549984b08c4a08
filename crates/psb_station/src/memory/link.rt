//! What a station in memory keeps of its link and its clock.
ghost use Rattle.std.specs.Prelude.{◌≡◌, [], ◌∷◌, OnOk, OnErr, false};
ghost use Rattle.psb_station.specs.Calls.{Grows};
ghost use Rattle.psb_station.specs.StationCalls.{IsFull};
ghost use Rattle.psb_station.specs.Answers.{answer_of, heard_of, time_of, TicksBy};

use crate::answer::{Answer, Answered};
use std::alloc::AllocError;

/// Keeps an answer of the link. Where its growth is refused, the answers are told no more.
pub fn keep(
    heard: &mut Vec<Answered>,
    whole: &mut bool,
    ticks: u64,
    answer: Answer,
) -> Result<(), AllocError>
    ensures grows { (clock : _) (arrivals : _) → Grows (heard_of whole.old clock arrivals heard.old.items ticks) (heard_of whole.new clock arrivals heard.new.items ticks) (answer_of arrivals answer ∷ []) }
    ensures timed { TicksBy ticks heard.old.items → TicksBy ticks heard.new.items }
    ensures ok { OnOk result (whole.new ≡ whole.old) }
    ensures err { OnErr result (whole.new ≡ false) }
    ensures full { OnErr result (IsFull 1 heard.old) }
{
    match heard.push(Answered { answer, ticks }) {
        Ok(()) => Ok(()),
        Err(_) => {
            *whole = false;
            Err(AllocError)
        }
    }
}

/// The number of the clock at a call of `now`, counted from 0.
pub fn time_at(clock: &[u64], tick: u64) -> u64
    ensures { result ≡ time_of clock.now tick }
{
    if clock.is_empty() {
        return 0;
    }
    clock[(tick as usize).min(clock.len() - 1)]
}
