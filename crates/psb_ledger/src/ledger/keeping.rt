//! What a ledger makes of own chunks: they are kept, a snapshot lists them, and they are forgotten.

ghost use Rattle.std.specs.Prelude.{◌≡◌, ◌<◌, ◌≤◌, ◌^◌, true, OnOk};
ghost use Rattle.psb_model.specs.declared.change.Change.TheVariants as change;
ghost use Rattle.psb_model.specs.Grammar.{in_grammar};
ghost use Rattle.psb_model.specs.Conditions.{allowed};
ghost use Rattle.psb_model.specs.Effects.{after};

use super::Ledger;
use own_chunks::{allows_snapshot, has_number, kept_of};
use psb_bytes::Memory;
use psb_model::{Kept, OwnEntry, SnapMark, Snapped};

impl Ledger {
    /// The chunk is not there yet, and its bytes are new exactly where no body is held under its name.
    pub(super) fn may_keep(&self, x: &Kept) -> bool
        ensures { result ≡ allowed self.now.state (change.Kept x.now) }
    {
        self.changes != 0 && !self.own.has(&x.name) && x.new != self.is_held(&x.name)
    }

    pub(super) fn make_room_to_keep(&mut self) -> Result<(), Memory>
        ensures state { self.new.state ≡ self.old.state }
        ensures room { OnOk result (1 ≤ self.new.own_room) }
    {
        self.own.reserve()
    }

    pub(super) fn keep(&mut self, x: &Kept)
        requires grammar { in_grammar (change.Kept x.now) ≡ true }
        requires room { 1 ≤ self.old.own_room }
        requires few { self.old.state.changes < 2 ^ 62 }
        requires may { allowed self.old.state (change.Kept x.now) ≡ true }
        ensures { self.new.state ≡ after self.old.state (change.Kept x.now) }
    {
        self.own.insert(OwnEntry {
            name: x.name,
            len: x.len,
            marked: false,
        });
        self.changes += 1;
    }

    pub(super) fn make_room_to_snap(&mut self) -> Result<(), Memory>
        ensures state { self.new.state ≡ self.old.state }
        ensures room { OnOk result (1 ≤ self.new.kept_room) }
    {
        self.kept.try_reserve(1)?;
        Ok(())
    }

    pub(super) fn may_snap(&self, x: &Snapped) -> bool
        ensures { result ≡ allowed self.now.state (change.Snapped x.now) }
    {
        self.changes != 0 && allows_snapshot(&self.snapped, &self.own, x.number, x.names.as_slice())
    }

    pub(super) fn snap(&mut self, x: Snapped)
        requires grammar { in_grammar (change.Snapped x) ≡ true }
        requires room { 1 ≤ self.old.kept_room }
        requires few { self.old.state.changes < 2 ^ 62 }
        requires may { allowed self.old.state (change.Snapped x) ≡ true }
        ensures { self.new.state ≡ after self.old.state (change.Snapped x) }
    {
        self.snapped = Some(SnapMark {
            number: x.number,
            change: self.changes,
        });
        self.own.lift(x.names.as_slice());
        self.kept.push(kept_of(x)).unwrap();
        self.changes += 1;
    }

    pub(super) fn may_forget(&self, number: u32) -> bool
        ensures { result ≡ allowed self.now.state (change.Forgot (record { number = number })) }
    {
        self.changes != 0 && has_number(self.kept.as_slice(), number)
    }

    /// Each own name is looked for in the lists that are left, by halves and in the newest first, and
    /// then at each peer: of `n` own names, `k` snapshots and `p` peers that takes at most some
    /// `n (k + p) log n` steps.
    pub(super) fn forget(&mut self, number: u32)
        requires few { self.old.state.changes < 2 ^ 62 }
        requires may { allowed self.old.state (change.Forgot (record { number = number })) ≡ true }
        ensures { self.new.state ≡ after self.old.state (change.Forgot (record { number = number })) }
    {
        self.kept.retain(|k| k.number != number);
        self.own
            .mark_unlisted(self.kept.as_slice(), self.accounts.as_slice());
        self.changes += 1;
    }
}
