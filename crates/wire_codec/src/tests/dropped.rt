//! Datagrams that are dropped, and which fault is told of one that has several.
use super::{NAME, keys, put_hex, signed};
use crate::{Dropped, decode};
use psb_bytes::PeerId;
use std::test::Fail;

/// Datagrams that another program made, and why node 1 drops them.
const DROPPED: [(&str, Dropped); 25] = [
    // one byte more than a Get has
    (
        "5053423107000000000000020000000100000000000000050000002182a3537ff0dbce7eec35d69edc3a189ee6f17d82f353a553f9aa96cb0be3ce89001d7f37f156ae5e314a234cfd11e34f2cf3aac8600e455bb85200126917c2d3c2",
        Dropped::BadBody,
    ),
    // one byte less
    (
        "5053423107000000000000020000000100000000000000050000001f82a3537ff0dbce7eec35d69edc3a189ee6f17d82f353a553f9aa96cb0be3ce3eb5a82dba5ddfe79597249cb7b2fe8308e6393182c6530b767037ece8aa214c",
        Dropped::BadBody,
    ),
    // one byte more than the length field says
    (
        "5053423107000000000000020000000100000000000000050000002082a3537ff0dbce7eec35d69edc3a189ee6f17d82f353a553f9aa96cb0be3ce8900521515fce6a2fd2b1bde2fd2fd9fb8b4c70130605b381beb113ad349848d2b5e",
        Dropped::BadBody,
    ),
    // one byte less than the length field says
    (
        "5053423107000000000000020000000100000000000000050000002182a3537ff0dbce7eec35d69edc3a189ee6f17d82f353a553f9aa96cb0be3ce896a63a27d6689e8ccdde95a9282dc77bf96d541a02cd5a5eafe861860100a38f1",
        Dropped::BadBody,
    ),
    // kind 13
    (
        "505342310d000000000000020000000100000000000000050000002082a3537ff0dbce7eec35d69edc3a189ee6f17d82f353a553f9aa96cb0be3ce893a986eeea181d0a25557b1ecfdc73d2fed5eedb4926eeb05788061d0e00bb535",
        Dropped::BadKind,
    ),
    // kind 0
    (
        "5053423100000000000000020000000100000000000000050000002082a3537ff0dbce7eec35d69edc3a189ee6f17d82f353a553f9aa96cb0be3ce89a85b0cc96b4dd08053b7e7d3394f4f290894bdccdcc52052c0462e653ad9c468",
        Dropped::BadKind,
    ),
    // to another
    (
        "5053423107000000000000020000000900000000000000050000002082a3537ff0dbce7eec35d69edc3a189ee6f17d82f353a553f9aa96cb0be3ce89f39e31d307c9df3822ba3d2bafdc9c1d829c71a7f9c0a4ee3ce4d1d1eccc6ade",
        Dropped::NotForMe,
    ),
    // from a stranger
    (
        "5053423107000000000000030000000100000000000000050000002082a3537ff0dbce7eec35d69edc3a189ee6f17d82f353a553f9aa96cb0be3ce89fae4b0a9cfa37e9111b7504ab6ab3e514a102f3fa166be0c4e691d2b7a3ff302",
        Dropped::Stranger,
    ),
    // another key
    (
        "5053423107000000000000020000000100000000000000050000002082a3537ff0dbce7eec35d69edc3a189ee6f17d82f353a553f9aa96cb0be3ce894ae84bc70c215902c90b1feb41d33180204c6672263d3392d8e497a8efbca18f",
        Dropped::BadTag,
    ),
    // padding
    (
        "5053423107010000000000020000000100000000000000050000002082a3537ff0dbce7eec35d69edc3a189ee6f17d82f353a553f9aa96cb0be3ce89b07aeb9b1873cc723fd56824cbfdfbd68fd67418262d0a56f7fb309c53d7a35a",
        Dropped::BadMagic,
    ),
    // magic
    (
        "5053423207000000000000020000000100000000000000050000002082a3537ff0dbce7eec35d69edc3a189ee6f17d82f353a553f9aa96cb0be3ce89b07aeb9b1873cc723fd56824cbfdfbd68fd67418262d0a56f7fb309c53d7a35a",
        Dropped::BadMagic,
    ),
    // cut to 59 bytes
    (
        "5053423107000000000000020000000100000000000000050000002082a3537ff0dbce7eec35d69edc3a189ee6f17d82f353a553f9aa96cb0be3ce",
        Dropped::Short,
    ),
    // last byte turned
    (
        "5053423107000000000000020000000100000000000000050000002082a3537ff0dbce7eec35d69edc3a189ee6f17d82f353a553f9aa96cb0be3ce89b07aeb9b1873cc723fd56824cbfdfbd68fd67418262d0a56f7fb309c53d7a35b",
        Dropped::BadTag,
    ),
    // n of 65
    (
        "50534231040000000000000200000001000000000000000500000002004125767ee33a0e211dcba8962168ab76eda8c1c85d2c09d632af5d8d4264168201",
        Dropped::BadBody,
    ),
    // why 0
    (
        "50534231050000000000000200000001000000000000000500000009000000000000000000f11a2d36905832e64297cf36aaae2885ce107e87bee294ba02d3835288d25b61",
        Dropped::BadBody,
    ),
    // why 10
    (
        "505342310500000000000002000000010000000000000005000000090a0000000000000000760c65ba9f3964e24069d1fb514b496cf96495b00d695e3992161e13b3419337",
        Dropped::BadBody,
    ),
    // equal slots
    (
        "5053423102000000000000020000000100000000000000050000002b82a3537ff0dbce7eec35d69edc3a189ee6f17d82f353a553f9aa96cb0be3ce8900000200000004000000043c3ae218cc94ba43b32e3a941c696e4866b31fc2b627761101885bdbfde648c0",
        Dropped::BadBody,
    ),
    // no slots
    (
        "5053423102000000000000020000000100000000000000050000002382a3537ff0dbce7eec35d69edc3a189ee6f17d82f353a553f9aa96cb0be3ce890000002898631be478ba015111fef2256c5d05ce4ea9d190f5ef00b7307c3ddca7fa7c",
        Dropped::BadBody,
    ),
    // mode 2
    (
        "5053423102000000000000020000000100000000000000050000002782a3537ff0dbce7eec35d69edc3a189ee6f17d82f353a553f9aa96cb0be3ce890200010000000494eab66af2deba5675dfd99c77a636c6b4852cb32cc42db9d0ef1ccc938bce1d",
        Dropped::BadBody,
    ),
    // place 32
    (
        "5053423106000000000000020000000100000000000000050000002463479ad69a090b258277ec8fba6f99419a2ffb248981510657c944ccd1148e9700010020d1d78f889f85a2f8dc76ef2972f2521256b69cb98906e953be7d7bda1c38fcdc",
        Dropped::BadBody,
    ),
    // no places
    (
        "5053423106000000000000020000000100000000000000050000002263479ad69a090b258277ec8fba6f99419a2ffb248981510657c944ccd1148e970000e61162844304b576bc7cc182e215a952331c55c49c1f43fb7c41fc70c36f546a",
        Dropped::BadBody,
    ),
    // no objects
    (
        "5053423109000000000000020000000100000000000000050000002263479ad69a090b258277ec8fba6f99419a2ffb248981510657c944ccd1148e970000b504750f6a98cffd7234aec2e2e79dc7c77440c0c6bfad2cd8c2a51c59560f76",
        Dropped::BadBody,
    ),
    // object of kind 2
    (
        "5053423109000000000000020000000100000000000000050000002763479ad69a090b258277ec8fba6f99419a2ffb248981510657c944ccd1148e9700010200000000a53094c4452c280aca15f95a9cd37914b71ee87e66ac778f69a4225bd4259e52",
        Dropped::BadBody,
    ),
    // no names
    (
        "505342310b000000000000020000000100000000000000050000002263479ad69a090b258277ec8fba6f99419a2ffb248981510657c944ccd1148e970000b26f7c373cf19c4f95278f2be3214e47fc9fb6e16e3f562f02a30debbc9fc01b",
        Dropped::BadBody,
    ),
    // no bytes
    (
        "5053423101000000000000020000000100000000000000050000002682a3537ff0dbce7eec35d69edc3a189ee6f17d82f353a553f9aa96cb0be3ce890000000000006c0286a42efaaf55b7b53aad9b929b12db045aa14b3463532a67b6d0ea2a1f64",
        Dropped::BadBody,
    ),
];

#[test]
fn datagrams_are_dropped_as_by_another_program(rt: HostRuntime) -> Result<(), Fail> {
    let keys = keys(rt.alloc())?;
    for (text, why) in DROPPED {
        let mut bytes = Vec::new(rt.alloc());
        put_hex(&mut bytes, text)?;
        assert_eq!(rt; decode(&bytes, PeerId(1), &keys).err(), Some(why), "{text}");
    }
    Ok(())
}

#[test]
fn the_first_fault_is_told(rt: HostRuntime) -> Result<(), Fail> {
    let keys = keys(rt.alloc())?;
    let mut name = Vec::new(rt.alloc());
    put_hex(&mut name, NAME)?;
    // A Get whose length field is one too much, and then one fault for each test before that one.
    let mut bytes = signed(rt.alloc(), 7, &name, 33)?;
    let faults = [
        (91, Dropped::BadTag),
        (11, Dropped::Stranger),
        (15, Dropped::NotForMe),
        (4, Dropped::BadKind),
        (3, Dropped::BadMagic),
    ];
    let mut want = Dropped::BadBody;
    for (place, fault) in faults {
        assert_eq!(rt; decode(&bytes, PeerId(1), &keys).err(), Some(want));
        assert!(rt; place < bytes.len());
        bytes[place] = 99;
        want = fault;
    }
    assert_eq!(rt; decode(&bytes, PeerId(1), &keys).err(), Some(want));
    assert_eq!(rt;
        decode(&[99; 59], PeerId(1), &keys).err(),
        Some(Dropped::Short)
    );
    Ok(())
}
