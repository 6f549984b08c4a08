//! What an account keeps of the node's own deals with its peer.

ghost use Rattle.std.specs.Prelude.{◌≡◌, ◌≤◌, ◌++◌, ◌∷◌, [], true, OnOk, IfSome, None, Some, map, option_to_list};
ghost use Rattle.std.specs.Option.{option_copied};
ghost use Rattle.psb_bytes.specs.declared.ids.Object.TheVariants.{Chunk, Slot};
ghost use Rattle.psb_model.specs.Words.{listed, slots, name_listed};
ghost use Rattle.psb_model.specs.Grammar.{ascend, what_in_grammar};
ghost use Rattle.own_deals.specs.OwnDeals.{ins_of, outs_of};
ghost use Rattle.psb_model.specs.State.{out_ties, in_ties, ties_in, ties_out};
ghost use Rattle.psb_model.specs.Effects.{deal_name, cancel_name, pending_name};
ghost use Rattle.own_deals.specs.OwnDeals.{number_of, barred_after};

use crate::barred::Barred;
use psb_bytes::{Digest, Memory, Object, PeerId};
use psb_model::{Deal, DealWhat, bars_name};
use std::alloc::Global;
use std::marker::Model;

/// The deal that has no reply yet, the number of the last one, the names that the peer turned down
/// for good, and those of the Cancels that it turned down.
#[derive(Drop)]
pub struct OwnDeals {
    pending: Option<Deal>,
    mine: u64,
    barred: Barred,
    turned_cancels: Barred,
}

impl Model for OwnDeals {
    ghost use Rattle.std.specs.Prelude.{◌≡◌, true};
    ghost use Rattle.own_deals.specs.OwnDeals.{OwnDealsView};
    ghost use Rattle.own_deals.specs.OwnDeals.{pending_listed, names_of};

    ghost Value = { OwnDealsView };

    ghost view = { λ o. record { pending = o.pending; mine = o.mine; barred = o.barred.items; turned_cancels = names_of o.turned_cancels.items; barred_room = o.barred.room; cancel_room = o.turned_cancels.room } };

    ghost invariant = { λ o. pending_listed o.pending ≡ true };
}

/// The chunk that the deal names, where it is a Cancel.
fn cancelled(what: &DealWhat) -> Option<Digest>
    ensures { option_to_list result ≡ cancel_name what.now }
{
    match what {
        DealWhat::Cancel { name, .. } => Some(*name),
        _ => None,
    }
}

/// How many chunks, and runs of slots, come to the two lists of a peer.
#[derive(Clone, Copy)]
pub struct Room {
    pub ins: usize,
    pub outs: usize,
}

/// The room that the deal takes when it is settled, but for the slots of its reply: each slot that goes
/// leaves two runs at most.
pub fn room_of(what: &DealWhat) -> Room
    ensures ins { result.ins ≡ ins_of what.now }
    ensures outs { result.outs ≡ outs_of what.now }
{
    match what {
        DealWhat::Fresh { .. } | DealWhat::PutBack { .. } => Room { ins: 0, outs: 1 },
        DealWhat::Swap { slots, .. } => Room {
            ins: 0,
            outs: 1 + 2 * slots.as_slice().len(),
        },
        DealWhat::Cancel { slots, .. } => Room {
            ins: 2 * slots.as_slice().len(),
            outs: 0,
        },
        DealWhat::Forward { .. } | DealWhat::Return { .. } => Room { ins: 0, outs: 2 },
    }
}

/// Whether the object is a slot of these numbers.
fn is_slot_of(numbers: &[u32], object: &Object) -> bool
    ensures { ascend numbers.now ≡ true → result ≡ listed (slots numbers.now) object.now }
{
    match object {
        Object::Chunk(_) => false,
        Object::Slot(number) => numbers.binary_search(number).is_ok(),
    }
}

/// Whether the object is the chunk of this name, and whether it is this slot.
fn is_chunk(object: &Object, name: &Digest) -> bool
    ensures { result ≡ listed (Chunk name.now ∷ []) object.now }
{
    match object {
        Object::Chunk(n) => name == n,
        Object::Slot(_) => false,
    }
}

fn is_slot(object: &Object, slot: u32) -> bool
    ensures { result ≡ listed (Slot slot ∷ []) object.now }
{
    match object {
        Object::Chunk(_) => false,
        Object::Slot(n) => slot == *n,
    }
}

/// Whether the deal ties the object in what the node has on its peer.
fn ties_there(what: &DealWhat, object: &Object) -> bool
    requires { what_in_grammar what.now ≡ true }
    ensures { result ≡ listed (out_ties what.now) object.now }
{
    match what {
        DealWhat::Fresh { .. } => false,
        DealWhat::Swap { slots, .. } => is_slot_of(slots.as_slice(), object),
        DealWhat::Cancel { name, .. } | DealWhat::PutBack { name, .. } => is_chunk(object, name),
        DealWhat::Forward { slot, .. } | DealWhat::Return { slot } => is_slot(object, *slot),
    }
}

/// Whether the deal with `peer` ties the object in what the node answers for to `holder`.
fn ties_here(peer: PeerId, what: &DealWhat, holder: PeerId, object: &Object) -> bool
    requires { what_in_grammar what.now ≡ true }
    ensures { result ≡ listed (in_ties peer what.now holder) object.now }
{
    match what {
        DealWhat::Cancel { slots, .. } => { peer == holder && is_slot_of(slots.as_slice(), object) }
        DealWhat::Forward { entry, .. } => entry.peer == holder && is_slot(object, entry.slot),
        _ => false,
    }
}

/// Puts a name behind the others, if there is one.
fn bar(barred: &mut Barred, name: Option<Digest>, change: u64)
    requires { 1 ≤ barred.old.room }
    ensures { barred.new.items ≡ barred.old.items ++ map (λ n. (n, change)) (option_to_list name) }
{
    if let Some(n) = name {
        barred.push(n, change);
    }
}

impl OwnDeals {
    /// Takes no memory.
    pub fn new(alloc: Global) -> OwnDeals
        ensures pending { result.pending ≡ None }
        ensures mine { result.mine ≡ 0 }
        ensures barred { result.barred ≡ [] }
        ensures cancels { result.turned_cancels ≡ [] }
    {
        OwnDeals {
            pending: None,
            mine: 0,
            barred: Barred::new(alloc),
            turned_cancels: Barred::new(alloc),
        }
    }

    pub fn pending(&self) -> Option<&Deal>
        ensures { option_copied result ≡ self.now.pending }
    {
        let _mine = self.mine;
        self.pending.as_ref()
    }

    pub fn mine(&self) -> u64
        ensures { result ≡ self.now.mine }
    {
        self.mine
    }

    /// The number of the first change by which the peer turned the name down for good.
    pub fn barred(&self, name: &Digest) -> Option<u64>
        ensures { result ≡ number_of self.now.barred name.now }
    {
        let _mine = self.mine;
        self.barred.number_of(name)
    }

    /// The chunk that the pending deal names.
    pub fn named(&self) -> Option<Digest>
        ensures { option_to_list result ≡ pending_name deal_name self.now.pending }
    {
        let _mine = self.mine;
        match &self.pending {
            None => None,
            Some(d) => d.what.name(),
        }
    }

    /// Whether the pending deal ties the object in what the node has on the peer.
    pub fn ties_out(&self, object: &Object) -> bool
        ensures { result ≡ ties_out self.now.pending object.now }
    {
        let _mine = self.mine;
        match &self.pending {
            None => false,
            Some(d) => ties_there(&d.what, object),
        }
    }

    /// Whether the pending deal with `peer` ties the object in what the node answers for to `holder`.
    pub fn ties_in(&self, peer: PeerId, holder: PeerId, object: &Object) -> bool
        ensures { result ≡ ties_in peer self.now.pending holder object.now }
    {
        let _mine = self.mine;
        match &self.pending {
            None => false,
            Some(d) => ties_here(peer, &d.what, holder, object),
        }
    }

    /// Makes room for a reply that turns a deal down.
    pub fn reserve(&mut self) -> Result<(), Memory>
        ensures pending { self.new.pending ≡ self.old.pending }
        ensures mine { self.new.mine ≡ self.old.mine }
        ensures barred { self.new.barred ≡ self.old.barred }
        ensures cancels { self.new.turned_cancels ≡ self.old.turned_cancels }
        ensures barred_room { OnOk result (1 ≤ self.new.barred_room) }
        ensures cancel_room { OnOk result (1 ≤ self.new.cancel_room) }
    {
        self.barred.reserve()?;
        self.turned_cancels.reserve()
    }

    pub fn propose(&mut self, deal: Deal)
        requires { what_in_grammar deal.what ≡ true }
        ensures pending { self.new.pending ≡ Some deal }
        ensures mine { self.new.mine ≡ deal.number }
        ensures barred { self.new.barred ≡ self.old.barred }
        ensures cancels { self.new.turned_cancels ≡ self.old.turned_cancels }
    {
        self.mine = deal.number;
        self.pending = Some(deal);
    }

    /// The pending deal has its reply.
    pub fn take(&mut self) -> Option<Deal>
        ensures result { result ≡ self.old.pending }
        ensures listed { IfSome result (λ d. what_in_grammar d.what ≡ true) }
        ensures pending { self.new.pending ≡ None }
        ensures mine { self.new.mine ≡ self.old.mine }
        ensures barred { self.new.barred ≡ self.old.barred }
        ensures cancels { self.new.turned_cancels ≡ self.old.turned_cancels }
    {
        let _mine = self.mine;
        self.pending.take()
    }

    /// The pending deal was turned down for this reason, by the change of this number: for a bad
    /// name, a chunk that is already there and a clash for good.
    pub fn turn(&mut self, why: u8, change: u64)
        requires barred_room { 1 ≤ self.old.barred_room }
        requires cancel_room { 1 ≤ self.old.cancel_room }
        ensures pending { self.new.pending ≡ None }
        ensures mine { self.new.mine ≡ self.old.mine }
        ensures barred { self.new.barred ≡ barred_after self.old.pending why change self.old.barred }
        ensures cancels { self.new.turned_cancels ≡ self.old.turned_cancels ++ pending_name cancel_name self.old.pending }
    {
        let named = self.named();
        let cancelled = self.cancelled();
        if bars_name(why) {
            bar(&mut self.barred, named, change);
        }
        bar(&mut self.turned_cancels, cancelled, change);
        self.pending = None;
    }

    /// Whether the peer turned down a Cancel of the chunk before.
    pub fn is_cancel_turned(&self, name: &Digest) -> bool
        ensures { result ≡ name_listed self.now.turned_cancels name.now }
    {
        let _mine = self.mine;
        self.turned_cancels.number_of(name).is_some()
    }

    /// The chunk that a pending Cancel names.
    pub fn cancelled(&self) -> Option<Digest>
        ensures { option_to_list result ≡ pending_name cancel_name self.now.pending }
    {
        let _mine = self.mine;
        match &self.pending {
            None => None,
            Some(d) => cancelled(&d.what),
        }
    }
}
