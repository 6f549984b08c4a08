ghost use Rattle.std.specs.Prelude.{◌≡◌};
ghost use Rattle.std.specs.Option.{option_map};

use crate::kinds::{
    Asked, Begun, Chose, Declined, Discarded, Failed, Forgot, Kept, LetGo, LetGoBack, Passed,
    Proposed, Refused, Replaced, Settled, Snapped, TookFresh, TookSwap, Turned,
};
use psb_bytes::Bytes;

/// A change of a node. Change number n is record n of its log. A kind without a body has an empty body
/// part.
#[derive(Drop)]
pub enum Change {
    Begun(Begun),
    Kept(Kept),
    Snapped(Snapped),
    Forgot(Forgot),
    TookFresh(TookFresh),
    TookSwap(TookSwap),
    LetGo(LetGo),
    LetGoBack(LetGoBack),
    Replaced(Replaced),
    Refused(Refused),
    Proposed(Proposed),
    Settled(Settled),
    Turned(Turned),
    Asked(Asked),
    Passed(Passed),
    Failed(Failed),
    Declined(Declined),
    Discarded(Discarded),
    Chose(Chose),
}

/// What is there of an optional body.
fn lent(body: &Option<Bytes>) -> Option<&[u8]>
    ensures { option_map (λ b. b.now) result ≡ body.now }
{
    match body {
        None => None,
        Some(bytes) => Some(bytes.as_slice()),
    }
}

impl Change {
    ghost use Rattle.psb_model.specs.Heads.{body_of};

    /// The body part, None exactly where it was given up. Takes no memory.
    pub fn body(&self) -> Option<&[u8]>
        ensures { option_map (λ b. b.now) result ≡ body_of self.now }
    {
        match self {
            Change::Begun(x) => lent(&x.body),
            Change::Kept(x) => lent(&x.body),
            Change::TookFresh(x) => lent(&x.body),
            Change::TookSwap(x) => lent(&x.body),
            Change::LetGoBack(x) => lent(&x.body),
            Change::Replaced(x) => lent(&x.body),
            Change::Settled(x) => lent(&x.body),
            _ => Some(&[]),
        }
    }
}
