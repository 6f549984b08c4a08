//! The link that was made last.

ghost use Rattle.std.specs.Prelude.{◌≡◌};
ghost use Rattle.claim_chain.specs.Latest.{latest_next, latest_carried, latest_left};

use psb_bytes::Seat;

/// A held seat, and the out seat that carries its bytes.
#[derive(Clone, Copy)]
pub(crate) struct Link {
    pub held: Seat,
    pub out: Seat,
}

/// The out seat that the link has for this held one.
pub(crate) fn next_in(latest: &Option<Link>, held: &Seat) -> Option<Seat>
    ensures { result ≡ latest_next latest.now held.now }
{
    match latest {
        Some(link) if link.held == *held => Some(link.out),
        _ => None,
    }
}

/// The held seat that the link has for this out one.
pub(crate) fn carried_in(latest: &Option<Link>, out: &Seat) -> Option<Seat>
    ensures { result ≡ latest_carried latest.now out.now }
{
    match latest {
        Some(link) if link.out == *out => Some(link.held),
        _ => None,
    }
}

/// The link, where it is another held seat's.
pub(crate) fn left_of(latest: &Option<Link>, held: &Seat) -> Option<Link>
    ensures { result ≡ latest_left latest.now held.now }
{
    match latest {
        Some(link) if link.held != *held => Some(*link),
        _ => None,
    }
}
