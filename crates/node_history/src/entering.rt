//! What a change does to the names that are held.

ghost use Rattle.std.specs.Prelude.{◌≡◌, ◌&&◌, not, option_to_list, ℕ, List, [], ◌∷◌, ◌++◌, true, if◌then◌else◌, IfOk, OnOk};
ghost use Rattle.std.specs.List.{list_all};
ghost use Rattle.std.specs.Option.{option_copied, option_map};
ghost use Rattle.psb_bytes.specs.declared.ids.Object.TheVariants.{Chunk};
ghost use Rattle.psb_model.specs.State.{own_has, debt_key};
ghost use Rattle.psb_model.specs.Conditions.{names_ascend};
ghost use Rattle.psb_model.specs.Words.{name_eq, name_listed, has};
ghost use Rattle.psb_model.specs.Effects.{kept_lists, kept_without};
ghost use Rattle.own_chunks.specs.OwnList.{own_key};
ghost use Rattle.peer_lists.specs.Entries.{in_order};
ghost use Rattle.chunk_store.specs.Store.{has_room};
ghost use Rattle.chunk_store.specs.declared.owner.Owner.TheVariants.{Own};
ghost use Rattle.node_history.specs.declared.entering.Entering.TheVariants.{Discards};
ghost use Rattle.node_history.specs.Names.{deal_names, AreChunks, AreOwed, Drops};

use chunk_store::{Owner, Store};
use psb_bytes::{Digest, DigestList, Items, Memory, Object, PeerId};
use psb_ledger::Ledger;
use psb_model::{Change, Deal, DebtEntry, OwnEntry, Snapshot};
use std::alloc::Global;

/// Whether a kept snapshot other than this one lists the name: one search in each list, the newest
/// first.
fn is_listed(kept: &[Snapshot], number: u32, name: &Digest) -> bool
    requires { list_all (λ k. names_ascend k.names) kept.now ≡ true }
    ensures { result ≡ kept_lists (kept_without number kept.now) name.now }
{
    for i in (0..kept.len()).rev() {
        if kept[i].number != number && kept[i].lists(name) {
            return true;
        }
    }
    false
}

/// Whether a kept snapshot other than this one lists the name.
fn is_kept(past: &Ledger, number: u32, name: &Digest) -> bool
    requires { list_all (λ k. names_ascend k.names) past.now.state.kept ≡ true }
    ensures { result ≡ kept_lists (kept_without number past.now.state.kept) name.now }
{
    is_listed(past.kept(), number, name)
}

/// Adds a name, where no kept snapshot other than this one lists it.
fn add_unlisted(
    names: &mut Vec<Digest>,
    past: &Ledger,
    number: u32,
    name: Digest,
) -> Result<(), Memory>
    requires { list_all (λ k. names_ascend k.names) past.now.state.kept ≡ true }
    ensures { OnOk result (names.new.items ≡ (if kept_lists (kept_without number past.now.state.kept) name then names.old.items else names.old.items ++ name ∷ [])) }
{
    if !is_kept(past, number, &name) {
        names.push(name)?;
    }
    Ok(())
}

/// The own names that no kept snapshot lists without this one, in their order.
fn unlisted_names(alloc: Global, past: &Ledger, number: u32) -> Result<DigestList, Memory>
    requires own { in_order own_key past.now.state.own ≡ true }
    requires kept { list_all (λ k. names_ascend k.names) past.now.state.kept ≡ true }
    ensures { IfOk result (λ names. (q : List ℕ) → name_listed names q ≡ (own_has past.now.state.own q && not (kept_lists (kept_without number past.now.state.kept) q))) }
{
    let mut names = Vec::new(alloc);
    let mut next = past.own_after(None);
    while let Some(own) = next {
        add_unlisted(&mut names, past, number, own.name)?;
        next = past.own_after(Some(&own.name));
    }
    Ok(Items::from_vec(names))
}

/// The name of the peer's pending deal, if it has one.
fn pending_name(past: &Ledger, peer: PeerId) -> Option<Digest>
    ensures { option_to_list result ≡ deal_names past.now.state peer }
{
    past.row(peer).named()
}

/// The same, as a list.
fn deal_names(alloc: Global, past: &Ledger, peer: PeerId) -> Result<DigestList, Memory>
    ensures { IfOk result (λ names. names ≡ deal_names past.now.state peer) }
{
    let mut names = Vec::new(alloc);
    if let Some(name) = pending_name(past, peer) {
        names.push(name)?;
    }
    Ok(Items::from_vec(names))
}

/// The names of the chunks among the objects, in their order.
fn chunk_names(alloc: Global, objects: &[Object]) -> Result<DigestList, Memory>
    ensures { IfOk result (λ names. AreChunks objects.now names) }
{
    let mut names = Vec::new(alloc);
    for object in objects {
        if let Object::Chunk(name) = object {
            names.push(*name)?;
        }
    }
    Ok(Items::from_vec(names))
}

/// The names of the chunks among these rows of debt, in their order.
fn row_names(alloc: Global, rows: &[DebtEntry]) -> Result<DigestList, Memory>
    ensures { IfOk result (λ names. (q : List ℕ) → name_listed names q ≡ has debt_key rows.now (Chunk q)) }
{
    let mut names = Vec::new(alloc);
    for row in rows {
        if let Object::Chunk(name) = &row.object {
            names.push(*name)?;
        }
    }
    Ok(Items::from_vec(names))
}

/// The names of the chunks of which the peer owes something.
fn owed_names(alloc: Global, past: &Ledger, peer: PeerId) -> Result<DigestList, Memory>
    ensures { IfOk result (λ names. AreOwed past.now.state peer names) }
{
    row_names(alloc, past.row(peer).debts())
}

/// What a discard of these objects of the peer does.
fn discards(
    alloc: Global,
    past: &Ledger,
    peer: PeerId,
    objects: &[Object],
) -> Result<Entering, Memory>
    ensures { IfOk result (λ e. (chunks : List (List ℕ)) × (owed : List (List ℕ)) × (e ≡ Discards peer chunks owed) × AreChunks objects.now chunks × AreOwed past.now.state peer owed) }
{
    let chunks = chunk_names(alloc, objects)?;
    let owed = owed_names(alloc, past, peer)?;
    Ok(Entering::Discards(peer, chunks, owed))
}

/// What a change does to the names that are held, as it is worked out before the change is made.
#[derive(Drop)]
pub enum Entering {
    Nothing,
    /// An owner is added to a name.
    AddsOwner(Owner, Digest),
    /// An owner is taken from a name.
    DropsOwner(Owner, Digest),
    /// The node itself owns these names no longer, but for those that it still has after the change.
    MayDropOwn(DigestList),
    /// This peer owns the first of these names no longer; nor does the node the second, but for those that it
    /// still has after the change.
    Discards(PeerId, DigestList, DigestList),
}

impl Entering {
    ghost use Rattle.node_history.specs.Names.{IsEntering, IsNew, Enter};

    /// What a change does, behind what is past.
    pub fn of(alloc: Global, past: &Ledger, change: &Change) -> Result<Entering, Memory>
        requires own { in_order own_key past.now.state.own ≡ true }
        requires kept { list_all (λ k. names_ascend k.names) past.now.state.kept ≡ true }
        ensures { IfOk result (IsEntering past.now.state change.now) }
    {
        match change {
            Change::Kept(x) => Ok(Entering::AddsOwner(Owner::Own, x.name)),
            Change::Forgot(x) => Ok(Entering::MayDropOwn(unlisted_names(alloc, past, x.number)?)),
            Change::Settled(x) => Ok(Entering::MayDropOwn(deal_names(alloc, past, x.peer)?)),
            Change::Turned(x) => Ok(Entering::MayDropOwn(deal_names(alloc, past, x.peer)?)),
            Change::TookFresh(x) => Ok(Entering::AddsOwner(Owner::Peer(x.peer), x.name)),
            Change::TookSwap(x) => Ok(Entering::AddsOwner(Owner::Peer(x.peer), x.name)),
            Change::LetGo(x) => Ok(Entering::DropsOwner(Owner::Peer(x.peer), x.name)),
            Change::LetGoBack(x) => Ok(Entering::DropsOwner(Owner::Peer(x.peer), x.name)),
            Change::Discarded(x) => discards(alloc, past, x.peer, x.objects.as_slice()),
            _ => Ok(Entering::Nothing),
        }
    }

    /// Has the names as the change leaves them, whose record has this number, and after which the node keeps this
    /// of its own. Takes no memory.
    pub fn enter(&self, names: &mut Store, number: u64, left: &Ledger)
        requires room { has_room names.old ≡ true }
        requires fresh { IsNew names.old self.now }
        ensures { Enter left.now.state.own names.old names.new self.now number }
    {
        match self {
            Entering::Nothing => {}
            Entering::AddsOwner(owner, name) => names.add(*owner, name, number),
            Entering::DropsOwner(owner, name) => drop_owner(names, *owner, name),
            Entering::MayDropOwn(dropped) => drop_own(names, dropped.as_slice(), left),
            Entering::Discards(peer, chunks, owed) => {
                drop_all(names, &Owner::Peer(*peer), chunks.as_slice());
                drop_own(names, owed.as_slice(), left);
            }
        }
    }
}

/// Takes an owner from those of a name. Takes no memory.
fn drop_owner(names: &mut Store, owner: Owner, name: &Digest)
    ensures { Drops names.old names.new owner (name_eq name.now) }
{
    let _ = names.remove(owner, name);
}

/// Takes an owner from those of these names. Takes no memory.
fn drop_all(names: &mut Store, owner: &Owner, dropped: &[Digest])
    ensures { Drops names.old names.new owner.now (name_listed dropped.now) }
{
    for name in dropped {
        drop_owner(names, *owner, name);
    }
}

/// Takes the node itself from the owners of a name that is no own chunk's. Takes no memory.
fn drop_lost(names: &mut Store, name: &Digest, left: &Ledger)
    ensures { Drops names.old names.new Own (λ q. name_eq name.now q && not (own_has left.now.state.own q)) }
{
    if !left.has_own(name) {
        drop_owner(names, Owner::Own, name);
    }
}

/// Takes the node itself from the owners of those of these names that are no own chunks. Takes no memory.
fn drop_own(names: &mut Store, dropped: &[Digest], left: &Ledger)
    ensures { Drops names.old names.new Own (λ q. name_listed dropped.now q && not (own_has left.now.state.own q)) }
{
    for name in dropped {
        drop_lost(names, name, left);
    }
}
