ghost use Rattle.std.specs.Prelude.{◌≡◌};

use crate::{Candidate, select};
use psb_bytes::PeerId;
use std::test::Fail;

fn candidate(peer: u32, got: u32, of: u32, hops: u32) -> Candidate
    ensures { result ≡ record { peer = peer; got = got; of = of; hops = hops } }
{
    Candidate {
        peer: PeerId(peer),
        got,
        of,
        hops,
    }
}

#[test]
fn the_greater_share_then_fewer_hops_then_the_lesser_id(rt: HostRuntime) -> Result<(), Fail> {
    let candidates = [
        candidate(7, 1, 2, 1),
        candidate(6, 16, 32, 0),
        candidate(5, 2, 3, 9),
        candidate(4, 5, 10, 1),
        candidate(3, 0, 32, 0),
        candidate(2, 3, 4, 9),
    ];
    let chosen = select(rt.alloc(), &candidates, 4)?;
    let order = chosen.ordered.as_slice();
    assert_eq!(&rt; order.len(), 6);
    assert_eq!(&rt; order[0].peer, PeerId(2));
    assert_eq!(&rt; order[1].peer, PeerId(5));
    assert_eq!(&rt; order[2].peer, PeerId(6));
    assert_eq!(&rt; order[3].peer, PeerId(4));
    assert_eq!(&rt; order[4].peer, PeerId(7));
    assert_eq!(&rt; order[5].peer, PeerId(3));
    assert_eq!(&rt; chosen.count, 4);
    Ok(())
}

#[test]
fn of_equal_shares_the_nearer_come_first(rt: HostRuntime) -> Result<(), Fail> {
    let candidates = [
        candidate(5, 3, 4, 2),
        candidate(4, 3, 4, 1),
        candidate(3, 1, 4, 0),
    ];
    let chosen = select(rt.alloc(), &candidates, 2)?;
    let order = chosen.ordered.as_slice();
    assert_eq!(&rt; order.len(), 3);
    assert_eq!(&rt; order[0].peer, PeerId(4));
    assert_eq!(&rt; order[1].peer, PeerId(5));
    assert_eq!(&rt; order[2].peer, PeerId(3));
    assert_eq!(&rt; chosen.count, 2);
    Ok(())
}

#[test]
fn of_no_candidates_none_is_chosen(rt: HostRuntime) -> Result<(), Fail> {
    let chosen = select(rt.alloc(), &[], 2)?;
    assert_eq!(&rt; chosen.ordered.as_slice().len(), 0);
    assert_eq!(&rt; chosen.count, 0);
    Ok(())
}
