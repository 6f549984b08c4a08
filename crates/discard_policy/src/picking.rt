//! One entry after another.

ghost use Rattle.std.specs.Prelude.{◌≡◌, ◌+◌, ◌-◌, ◌%◌, ◌^◌, true, if◌then◌else◌};
ghost use Rattle.psb_digest.specs.Words.{word};
ghost use Rattle.psb_model.specs.declared.entries.InEntry.{InEntry};
ghost use Rattle.psb_model.specs.Discards.{is_picked};
ghost use Rattle.discard_policy.specs.Grades.{every, is_grade};

use crate::grades::Grade;
use psb_digest::Words;

/// How many entries a discard takes at most.
pub const MOST_CHOSEN: u32 = 1_048_576;

/// What a discard may still take: units up to the debt that is left, and so many entries.
#[derive(Drop)]
pub struct Picker {
    pub grade: Grade,
    pub left: u32,
    pub room: u32,
    ghost is_grade: { is_grade grade ≡ true },
}

impl Picker {
    /// Before the first entry.
    pub fn new(grade: Grade, debt: u32) -> Picker
        requires { is_grade grade ≡ true }
        ensures grade { result.grade ≡ grade }
        ensures left { result.left ≡ debt }
        ensures room { result.room ≡ 1048576 }
    {
        Picker {
            grade,
            left: debt,
            room: MOST_CHOSEN,
        }
    }

    /// Whether an entry of so many units is taken. Each entry that is offered uses up a word, taken or not.
    pub fn pick(&mut self, word: u32, units: u32) -> bool
        ensures picked { (e : InEntry) → e.units ≡ units → result ≡ is_picked (every self.old.grade) word self.old.left self.old.room e }
        ensures grade { self.new.grade ≡ self.old.grade }
        ensures left { self.new.left ≡ (if result then self.old.left - units else self.old.left) }
        ensures room { self.new.room ≡ (if result then self.old.room - 1 else self.old.room) }
    {
        let picked = self.grade.lets_go(word) && units <= self.left && 0 < self.room;
        if picked {
            self.left -= units;
            self.room -= 1;
        }
        picked
    }

    /// Draws the word of an entry of so many units, and answers whether the entry is taken.
    pub fn draw(&mut self, words: &mut Words, units: u32) -> bool
        ensures words { words.new ≡ record words.old { place = (words.old.place + 1) % 2 ^ 68 } }
        ensures picked { (e : InEntry) → e.units ≡ units → result ≡ is_picked (every self.old.grade) (word words.old.key words.old.stream words.old.place) self.old.left self.old.room e }
        ensures grade { self.new.grade ≡ self.old.grade }
        ensures left { self.new.left ≡ (if result then self.old.left - units else self.old.left) }
        ensures room { self.new.room ≡ (if result then self.old.room - 1 else self.old.room) }
    {
        self.pick(words.next(), units)
    }
}
