//! What the ledger keeps of one peer, with its running sums.

ghost use Rattle.std.specs.Prelude.{◌≡◌};
ghost use Rattle.psb_model.specs.State.{blank, held_units, back_units, debt_units};
ghost use Rattle.peer_account.specs.View.{AccountView, whole_row, IsAccount};

mod dealing;
mod discarding;
mod looking;
mod moves;
mod naming;
mod own_moves;
mod probing;
mod room;
mod states;

use crate::probes::Probes;
pub use naming::is_named;
use own_deals::OwnDeals;
use peer_debts::DebtList;
use peer_lists::{InList, OutList};
use psb_bytes::PeerId;
use psb_model::{DebtEntry, LastDeal};
use std::alloc::Global;
use std::marker::Model;

/// What is kept of one peer: what the node answers for to it and what it has there, in object order,
/// what the peer lost, in order of booking, its last deal, the node's own deals with it, and the
/// node's probes of it. Contracts see the peer's row, and how much room the lists have.
#[derive(Drop)]
pub struct Account {
    id: PeerId,
    ins: InList,
    outs: OutList,
    debts: DebtList,
    last: LastDeal,
    deals: OwnDeals,
    probes: Probes,
    held: u32,
    back: u32,
    debt: u32,
}

impl Model for Account {
    ghost Value = { AccountView };

    ghost view = { λ a. record { id = a.id; row = whole_row a.ins.items a.outs.items a.debts.items a.last a.deals a.probes; in_room = a.ins.room; out_room = a.outs.room; barred_room = a.deals.barred_room; cancel_room = a.deals.cancel_room; debt_room = a.debts.room } };

    ghost invariant = { λ a. IsAccount a.held a.back a.debt a.ins.items a.outs.items a.debts.items };
}

impl Account {
    /// An account with empty lists. Takes no memory.
    pub fn new(alloc: Global, id: PeerId) -> Account
        ensures id { result.id ≡ id }
        ensures row { result.row ≡ blank }
    {
        Account {
            id,
            ins: InList::new(alloc),
            outs: OutList::new(alloc),
            debts: DebtList::new(alloc),
            last: LastDeal {
                number: 0,
                change: 0,
            },
            deals: OwnDeals::new(alloc),
            probes: Probes::new(),
            held: 0,
            back: 0,
            debt: 0,
        }
    }

    /// The peer's id.
    pub fn id(&self) -> PeerId
        ensures { result ≡ self.now.id }
    {
        self.id
    }

    /// What the node answers for to the peer, in units of 512 bytes.
    pub fn held(&self) -> u32
        ensures { result ≡ held_units self.now.row }
    {
        self.held
    }

    /// What the node has on the peer, in units of 512 bytes.
    pub fn back(&self) -> u32
        ensures { result ≡ back_units self.now.row }
    {
        self.back
    }

    /// What the peer lost and still owes, in units of 512 bytes.
    pub fn debt(&self) -> u32
        ensures { result ≡ debt_units self.now.row }
    {
        self.debt
    }

    /// The peer's last deal that was taken or refused, and its change; both 0 where there is none.
    pub fn last(&self) -> LastDeal
        ensures { result ≡ self.now.row.last }
    {
        self.last
    }

    /// What the node answers for to the peer, in object order.
    pub fn ins(&self) -> &InList
        ensures { result.now.items ≡ self.now.row.ins }
    {
        &self.ins
    }

    /// What the node has on the peer, in object order.
    pub fn outs(&self) -> &OutList
        ensures { result.now.items ≡ self.now.row.outs }
    {
        &self.outs
    }

    /// What the peer lost, in order of booking.
    pub fn debts(&self) -> &[DebtEntry]
        ensures { result.now ≡ self.now.row.debts }
    {
        self.debts.as_slice()
    }
}
