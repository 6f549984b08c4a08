//! What an account keeps of the node's probes of its peer.

ghost use Rattle.std.specs.Prelude.{◌≡◌, ◌+◌, ◌||◌, nat_le, min, None, Some, false};
ghost use Rattle.psb_model.specs.Conditions.{asked_objects};

use psb_bytes::ObjectList;

/// So many failures in a row make a discard due.
const DUE_FROM: u32 = 3;

/// The number of the last probe that has no outcome yet with the objects that it asks for, how many
/// probes failed in a row, and whether a discard is due.
#[derive(Drop)]
pub struct Probes {
    pub asked: Option<(u64, ObjectList)>,
    pub fails: u32,
    pub due: bool,
}

impl Probes {
    pub fn new() -> Probes
        ensures asked { result.asked ≡ None }
        ensures fails { result.fails ≡ 0 }
        ensures due { result.due ≡ false }
    {
        Probes {
            asked: None,
            fails: 0,
            due: false,
        }
    }

    /// Notes that these objects were asked for, by the change of this number.
    pub fn ask(&mut self, change: u64, objects: ObjectList)
        ensures { self.new ≡ record self.old { asked = Some (change, objects) } }
    {
        self.asked = Some((change, objects));
    }

    /// The last probe has its outcome.
    pub fn end(&mut self)
        ensures { self.new ≡ record self.old { asked = None } }
    {
        self.asked = None;
    }

    /// The last probe has its outcome. Answers what it asked for, where it is the change of this number.
    pub fn end_for(&mut self, asked: u64) -> Option<ObjectList>
        ensures asked { result ≡ asked_objects self.old.asked asked }
        ensures ended { self.new ≡ record self.old { asked = None } }
    {
        let (number, objects) = self.asked.take()?;
        if number != asked {
            return None;
        }
        Some(objects)
    }

    /// Counts one more failure in a row.
    pub fn count_failure(&mut self)
        ensures { self.new ≡ record self.old { fails = min (self.old.fails + 1) 4294967295; due = self.old.due || nat_le 3 (min (self.old.fails + 1) 4294967295) } }
    {
        self.fails = self.fails.saturating_add(1);
        self.due = self.due || DUE_FROM <= self.fails;
    }

    /// No discard is due any more.
    pub fn clear_due(&mut self)
        ensures { self.new ≡ record self.old { due = false } }
    {
        self.due = false;
    }

    /// No failures in a row are left.
    pub fn clear_failures(&mut self)
        ensures { self.new ≡ record self.old { fails = 0 } }
    {
        self.fails = 0;
    }
}
