use crate::{Links, PeerId, Seat};
use std::test::Fail;

fn seat(peer: u32, slot: u32) -> Seat {
    Seat {
        peer: PeerId(peer),
        slot,
    }
}

/// Makes room and links two seats that have no link.
fn link(links: &mut Links, held: &Seat, out: &Seat) -> bool {
    let room = links.make_room();
    if room.is_err() || links.next(held).is_some() || links.carried(out).is_some() {
        return false;
    }
    links.forward(*held, *out);
    true
}

#[test]
fn a_link_is_found_until_it_is_cut(rt: HostRuntime) -> Result<(), Fail> {
    let mut links = Links::new(rt.alloc());
    let held = seat(3, 5);
    let out = seat(2, 0);
    assert!(&rt; link(&mut links, &held, &out));
    assert_eq!(&rt; links.next(&held), Some(out));
    assert_eq!(&rt; links.loosen(&held), Some(out));
    assert_eq!(&rt; links.next(&held), None);
    Ok(())
}

#[test]
fn the_other_links_stay_as_one_is_cut(rt: HostRuntime) -> Result<(), Fail> {
    let mut links = Links::new(rt.alloc());
    for slot in 0..40u32 {
        assert!(&rt;
            link(&mut links, &seat(3, slot), &seat(2, 40 - slot)),
            "{slot}"
        );
    }
    assert!(&rt; links.make_room().is_ok());
    assert_eq!(&rt; links.loosen(&seat(3, 7)), Some(seat(2, 33)));
    assert_eq!(&rt; links.carried(&seat(2, 33)), None);
    assert_eq!(&rt; links.loosen(&seat(3, 7)), None);
    assert_eq!(&rt; links.next(&seat(3, 8)), Some(seat(2, 32)));
    assert_eq!(&rt; links.carried(&seat(2, 34)), Some(seat(3, 6)));
    Ok(())
}
