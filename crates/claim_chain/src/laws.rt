//! What holds of all links.

ghost use Rattle.claim_chain.specs.OneToOne.{AreOneToOne};
ghost use Rattle.claim_chain.specs.Links.{next_of, carried_of};

use crate::Links;

/// What a held seat is linked to carries for that seat alone, and the other way round.
pub fn links_are_one_to_one(links: &Links)
    ensures { AreOneToOne (next_of links.now) (carried_of links.now) }
{}
