//! What a ledger makes of a discard: by chance the node lets go of what it answers for to a peer, and as
//! much of what the peer lost is owed no more.

ghost use Rattle.std.specs.Prelude.{◌≡◌, ◌==◌, ◌<◌, ◌^◌, true, false, length, map, Some, position};
ghost use Rattle.psb_model.specs.State.{in_key};
ghost use Rattle.psb_model.specs.Discards.{discards};
ghost use Rattle.psb_model.specs.declared.change.Change.TheVariants as change;
ghost use Rattle.psb_model.specs.Conditions.{allowed, same_objects};
ghost use Rattle.psb_model.specs.Effects.{after, given_up};
ghost use Rattle.peer_account.specs.View.{named_row};
ghost use Rattle.peer_lists.specs.Entries.{in_order};
ghost use Rattle.own_chunks.specs.OwnList.{own_key};
ghost use Rattle.accounts.specs.Freeing.{row_at, have_out_room, free_room};
ghost use Rattle.psb_ledger.specs.Moves.{MayDiscard};

use super::Ledger;
use accounts::{are_taken, free};
use discard_policy::{Picker, grade};
use own_chunks::Own;
use peer_account::Account;
use psb_bytes::{Object, PeerId};
use psb_digest::own_words;
use psb_model::Discarded;

/// Gives up the marked own chunks that no account names, where rows of debt are gone: while none is, all
/// is named that was.
fn give_up(own: &mut Own, accounts: &[Account], are_gone: bool)
    requires ordered { in_order own_key own.old.items ≡ true }
    requires named { are_gone ≡ false → given_up (map named_row accounts.now) own.old.items ≡ own.old.items }
    ensures { own.new.items ≡ given_up (map named_row accounts.now) own.old.items }
{
    if are_gone {
        own.give_up(accounts);
    }
}

impl Ledger {
    /// Whether these are the objects that a discard of the peer's takes by the node's own words for the
    /// next change: none where the peer owes nothing, which needs no pass.
    fn are_discards(&self, peer: PeerId, objects: &[Object]) -> bool
        ensures { result ≡ same_objects objects.now (map in_key (discards self.now.state peer)) }
    {
        let Some(settings) = &self.settings else {
            return objects.is_empty();
        };
        let row = self.row(peer);
        let debt = row.debt();
        if debt == 0 {
            return objects.is_empty();
        }
        let mut words = own_words(&settings.seed, self.changes);
        let mut picker = Picker::new(grade(row.fails()), debt);
        are_taken(
            self.accounts.as_slice(),
            peer,
            row.ins(),
            objects,
            &mut words,
            &mut picker,
        )
    }

    /// A discard is due, and the objects are those that it takes.
    pub(super) fn may_discard(&self, x: &Discarded) -> bool
        ensures { result ≡ allowed self.now.state (change.Discarded x.now) }
    {
        self.is_open(x.peer)
            && self.row(x.peer).due()
            && self.are_discards(x.peer, x.objects.as_slice())
    }

    pub(super) fn discard(&mut self, at: usize, x: &Discarded)
        requires few { self.old.state.changes < 2 ^ 62 }
        requires place { Some at ≡ position (λ v. v.id == x.now.peer) self.old.accounts }
        requires within { at < length self.old.accounts }
        requires loose { have_out_room (free_room (row_at self.old.accounts at).ins x.now.objects) self.old.accounts ≡ true }
        requires may { MayDiscard self.old x.now at }
        ensures { self.new.state ≡ after self.old.state (change.Discarded x.now) }
    {
        let changes = self.changes;
        free(&mut self.accounts, at, x.objects.as_slice());
        let account = &mut self.accounts[at];
        let before = account.held();
        let rows = account.debts().len();
        account.discard(x.objects.as_slice());
        let after = account.held();
        let are_gone = account.debts().len() < rows;
        give_up(&mut self.own, self.accounts.as_slice(), are_gone);
        self.used = self.used - before + after;
        self.changes = changes + 1;
    }
}
