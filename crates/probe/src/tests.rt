use crate::{Chain, late};
use psb_bytes::{Digest, read_digest};
use std::test::Fail;

fn digest(text: &str) -> Result<Digest, Fail> {
    Ok(read_digest(text).ok_or("64 digits")?)
}

// Made elsewhere: the chain over one byte, an empty object and 512 zeros.
#[test]
fn a_chain_has_the_value_of_another_implementation(rt: HostRuntime) -> Result<(), Fail> {
    let nonce = digest("1b16b1df538ba12dc3f97edbb85caa7050d46c148134290feba80f8236c83db9")?;
    let mut chain = Chain::start(&nonce);
    assert_eq!(&rt; chain.value(), nonce);
    chain.add(b"a");
    chain.add(b"");
    let mut relayed = Chain::start(&chain.value());
    relayed.add(&[0; 512]);
    let wanted = digest("0e89589cb45a27d11be4d46317f13fd9ca02cd62b6460ff89bb9b2acb7882092")?;
    assert_eq!(&rt; relayed.value(), wanted);
    chain.add(&[0; 512]);
    assert_eq!(&rt; chain.value(), wanted);
    Ok(())
}

#[test]
fn an_answer_is_late_from_the_eighth_tick_on(rt: HostRuntime) -> Result<(), Fail> {
    for (began, clock, is_late) in [
        (4, 4, false),
        (4, 11, false),
        (4, 12, true),
        (0, u64::MAX, true),
    ] {
        assert_eq!(&rt; late(began, clock), is_late, "{began} {clock}");
    }
    Ok(())
}
