//! Changes written as the heads of records: for each kind its number, and its fields in order.

ghost use Rattle.std.specs.Prelude.{◌≡◌, ◌<◌, ◌^◌, ◌++◌, ◌∷◌, [], length, IfOk, OnOk, IsTrue};
ghost use Rattle.psb_model.specs.declared.deals.DealWhat.TheVariants.{Forward};
ghost use Rattle.psb_model.specs.declared.change.Change.TheVariants as change;
ghost use Rattle.psb_bytes.specs.Numbers.{u32_bytes, u64_bytes};
ghost use Rattle.psb_model.specs.Heads.{head_of, flag, deal_fields};
ghost use Rattle.psb_model.specs.Grammar.{in_grammar, what_in_grammar};

use crate::lists::put_list;
use crate::writing::{put_bytes, put_peer, put_u8, put_u32, put_u64};
use psb_bytes::{Digest, Memory, PeerId, Seat};
use psb_model::{
    Asked, Change, Chose, DealWhat, Declined, Discarded, Failed, Forgot, Kept, LetGo, LetGoBack,
    Passed, Proposed, Refused, Replaced, Settled, Snapped, TookFresh, TookSwap, Turned,
};
use std::alloc::Global;

/// A kind, a peer and a number, which the heads of deals begin with.
fn put_deal(out: &mut Vec<u8>, kind: u8, peer: PeerId, deal: u64) -> Result<(), Memory>
    ensures { OnOk result (out.new.items ≡ out.old.items ++ kind ∷ (u32_bytes peer ++ u64_bytes deal)) }
{
    put_u8(out, kind)?;
    put_peer(out, peer)?;
    put_u64(out, deal)
}

/// A deal of a peer, and the chunk that it names.
fn put_named(
    out: &mut Vec<u8>,
    kind: u8,
    peer: PeerId,
    deal: u64,
    name: &Digest,
) -> Result<(), Memory>
    ensures { OnOk result (out.new.items ≡ out.old.items ++ kind ∷ (u32_bytes peer ++ u64_bytes deal ++ name.now)) }
{
    put_deal(out, kind, peer, deal)?;
    put_bytes(out, &name.0)
}

/// The length of a chunk, and whether its bytes are new.
fn put_stored(out: &mut Vec<u8>, len: u32, new: bool) -> Result<(), Memory>
    ensures { OnOk result (out.new.items ≡ out.old.items ++ (u32_bytes len ++ flag new)) }
{
    put_u32(out, len)?;
    put_u8(out, new as u8)
}

fn kept(out: &mut Vec<u8>, x: &Kept) -> Result<(), Memory>
    ensures { OnOk result (out.new.items ≡ out.old.items ++ head_of (change.Kept x.now)) }
{
    put_u8(out, 2)?;
    put_bytes(out, &x.name.0)?;
    put_stored(out, x.len, x.new)
}

fn snapped(out: &mut Vec<u8>, x: &Snapped) -> Result<(), Memory>
    requires { length x.now.names < 2 ^ 32 }
    ensures { OnOk result (out.new.items ≡ out.old.items ++ head_of (change.Snapped x.now)) }
{
    put_u8(out, 3)?;
    put_u32(out, x.number)?;
    put_bytes(out, &x.ticket.bytes())?;
    put_u32(out, x.files)?;
    put_u32(out, x.folders)?;
    put_u64(out, x.bytes)?;
    put_u32(out, x.left)?;
    put_list(out, x.names.as_slice())?;
    Ok(())
}

fn forgot(out: &mut Vec<u8>, x: &Forgot) -> Result<(), Memory>
    ensures { OnOk result (out.new.items ≡ out.old.items ++ head_of (change.Forgot x.now)) }
{
    put_u8(out, 4)?;
    put_u32(out, x.number)
}

fn took_fresh(out: &mut Vec<u8>, x: &TookFresh) -> Result<(), Memory>
    ensures { OnOk result (out.new.items ≡ out.old.items ++ head_of (change.TookFresh x.now)) }
{
    put_named(out, 5, x.peer, x.deal, &x.name)?;
    put_u32(out, x.first)?;
    put_stored(out, x.len, x.new)?;
    Ok(())
}

fn took_swap(out: &mut Vec<u8>, x: &TookSwap) -> Result<(), Memory>
    requires { length x.now.slots < 2 ^ 32 }
    ensures { OnOk result (out.new.items ≡ out.old.items ++ head_of (change.TookSwap x.now)) }
{
    put_named(out, 6, x.peer, x.deal, &x.name)?;
    put_list(out, x.slots.as_slice())?;
    put_stored(out, x.len, x.new)?;
    Ok(())
}

fn let_go(out: &mut Vec<u8>, x: &LetGo) -> Result<(), Memory>
    requires { length x.now.slots < 2 ^ 32 }
    ensures { OnOk result (out.new.items ≡ out.old.items ++ head_of (change.LetGo x.now)) }
{
    put_named(out, 7, x.peer, x.deal, &x.name)?;
    put_list(out, x.slots.as_slice())
}

fn let_go_back(out: &mut Vec<u8>, x: &LetGoBack) -> Result<(), Memory>
    requires { length x.now.slots < 2 ^ 32 }
    ensures { OnOk result (out.new.items ≡ out.old.items ++ head_of (change.LetGoBack x.now)) }
{
    put_named(out, 8, x.peer, x.deal, &x.name)?;
    put_list(out, x.slots.as_slice())
}

fn replaced(out: &mut Vec<u8>, x: &Replaced) -> Result<(), Memory>
    ensures { OnOk result (out.new.items ≡ out.old.items ++ head_of (change.Replaced x.now)) }
{
    put_deal(out, 9, x.peer, x.deal)?;
    put_u32(out, x.slot)?;
    put_u8(out, x.place)?;
    put_u32(out, x.home)
}

fn refused(out: &mut Vec<u8>, x: &Refused) -> Result<(), Memory>
    ensures { OnOk result (out.new.items ≡ out.old.items ++ head_of (change.Refused x.now)) }
{
    put_deal(out, 10, x.peer, x.deal)?;
    put_u8(out, x.why)?;
    put_u64(out, x.detail)
}

fn put_forward(out: &mut Vec<u8>, slot: u32, entry: Seat) -> Result<(), Memory>
    ensures { OnOk result (out.new.items ≡ out.old.items ++ deal_fields (Forward slot entry)) }
{
    put_u8(out, 5)?;
    put_u32(out, slot)?;
    put_peer(out, entry.peer)?;
    put_u32(out, entry.slot)?;
    Ok(())
}

fn put_what(out: &mut Vec<u8>, what: &DealWhat) -> Result<(), Memory>
    requires { IsTrue (what_in_grammar what.now) }
    ensures { OnOk result (out.new.items ≡ out.old.items ++ deal_fields what.now) }
{
    match what {
        DealWhat::Fresh { name } => {
            put_u8(out, 1)?;
            put_bytes(out, &name.0)
        }
        DealWhat::Swap { name, slots } => {
            put_u8(out, 2)?;
            put_bytes(out, &name.0)?;
            put_list(out, slots.as_slice())
        }
        DealWhat::Cancel { name, slots } => {
            put_u8(out, 3)?;
            put_bytes(out, &name.0)?;
            put_list(out, slots.as_slice())
        }
        DealWhat::PutBack { name, first } => {
            put_u8(out, 4)?;
            put_bytes(out, &name.0)?;
            put_u32(out, *first)
        }
        DealWhat::Forward { slot, entry } => put_forward(out, *slot, *entry),
        DealWhat::Return { slot } => {
            put_u8(out, 6)?;
            put_u32(out, *slot)
        }
    }
}

fn proposed(out: &mut Vec<u8>, x: &Proposed) -> Result<(), Memory>
    requires { IsTrue (what_in_grammar x.now.what) }
    ensures { OnOk result (out.new.items ≡ out.old.items ++ head_of (change.Proposed x.now)) }
{
    put_deal(out, 11, x.peer, x.deal)?;
    put_what(out, &x.what)
}

fn settled(out: &mut Vec<u8>, x: &Settled) -> Result<(), Memory>
    requires { length x.now.slots < 2 ^ 32 }
    ensures { OnOk result (out.new.items ≡ out.old.items ++ head_of (change.Settled x.now)) }
{
    put_deal(out, 12, x.peer, x.deal)?;
    put_list(out, x.slots.as_slice())
}

fn turned(out: &mut Vec<u8>, x: &Turned) -> Result<(), Memory>
    ensures { OnOk result (out.new.items ≡ out.old.items ++ head_of (change.Turned x.now)) }
{
    put_deal(out, 13, x.peer, x.deal)?;
    put_u8(out, x.why)?;
    put_u64(out, x.detail)
}

fn asked(out: &mut Vec<u8>, x: &Asked) -> Result<(), Memory>
    requires { length x.now.objects < 2 ^ 32 }
    ensures { OnOk result (out.new.items ≡ out.old.items ++ head_of (change.Asked x.now)) }
{
    put_u8(out, 14)?;
    put_peer(out, x.peer)?;
    put_list(out, x.objects.as_slice())
}

fn passed(out: &mut Vec<u8>, x: &Passed) -> Result<(), Memory>
    requires { length x.now.objects < 2 ^ 32 }
    ensures { OnOk result (out.new.items ≡ out.old.items ++ head_of (change.Passed x.now)) }
{
    put_deal(out, 15, x.peer, x.asked)?;
    put_list(out, x.objects.as_slice())
}

fn failed(out: &mut Vec<u8>, x: &Failed) -> Result<(), Memory>
    requires { length x.now.objects < 2 ^ 32 }
    ensures { OnOk result (out.new.items ≡ out.old.items ++ head_of (change.Failed x.now)) }
{
    put_deal(out, 16, x.peer, x.asked)?;
    put_u8(out, x.how)?;
    put_bytes(out, &x.got.0)?;
    put_list(out, x.objects.as_slice())
}

fn declined(out: &mut Vec<u8>, x: &Declined) -> Result<(), Memory>
    requires { length x.now.places < 2 ^ 32 }
    ensures { OnOk result (out.new.items ≡ out.old.items ++ head_of (change.Declined x.now)) }
{
    put_deal(out, 17, x.peer, x.asked)?;
    put_list(out, x.places.as_slice())
}

fn discarded(out: &mut Vec<u8>, x: &Discarded) -> Result<(), Memory>
    requires { length x.now.objects < 2 ^ 32 }
    ensures { OnOk result (out.new.items ≡ out.old.items ++ head_of (change.Discarded x.now)) }
{
    put_u8(out, 18)?;
    put_peer(out, x.peer)?;
    put_list(out, x.objects.as_slice())
}

fn chose(out: &mut Vec<u8>, x: &Chose) -> Result<(), Memory>
    requires { length x.now.candidates < 2 ^ 32 }
    ensures { OnOk result (out.new.items ≡ out.old.items ++ head_of (change.Chose x.now)) }
{
    put_u8(out, 19)?;
    put_list(out, x.candidates.as_slice())
}

/// The head of a change, behind what stands there.
fn put_head(out: &mut Vec<u8>, change: &Change) -> Result<(), Memory>
    requires { IsTrue (in_grammar change.now) }
    ensures { OnOk result (out.new.items ≡ out.old.items ++ head_of change.now) }
{
    match change {
        Change::Begun(_) => put_u8(out, 1),
        Change::Kept(x) => kept(out, x),
        Change::Snapped(x) => snapped(out, x),
        Change::Forgot(x) => forgot(out, x),
        Change::TookFresh(x) => took_fresh(out, x),
        Change::TookSwap(x) => took_swap(out, x),
        Change::LetGo(x) => let_go(out, x),
        Change::LetGoBack(x) => let_go_back(out, x),
        Change::Replaced(x) => replaced(out, x),
        Change::Refused(x) => refused(out, x),
        Change::Proposed(x) => proposed(out, x),
        Change::Settled(x) => settled(out, x),
        Change::Turned(x) => turned(out, x),
        Change::Asked(x) => asked(out, x),
        Change::Passed(x) => passed(out, x),
        Change::Failed(x) => failed(out, x),
        Change::Declined(x) => declined(out, x),
        Change::Discarded(x) => discarded(out, x),
        Change::Chose(x) => chose(out, x),
    }
}

/// The head of a change: its kind, and its fields in order, numbers high byte first.
pub fn encode_change(alloc: Global, c: &Change) -> Result<Vec<u8>, Memory>
    requires grammar { IsTrue (in_grammar c.now) }
    ensures { IfOk result (λ v. v.items ≡ head_of c.now) }
{
    let mut head = Vec::new(alloc);
    put_head(&mut head, c)?;
    Ok(head)
}
