use crate::{OpenError, Sealed, open, seal};
use psb_bytes::{Digest, LONGEST_CHUNK, Ref, read_digest};
use psb_digest::{mask, sha_two};
use std::alloc::Global;
use std::test::Fail;

// The first bytes of the stream of a seed.
fn stream(alloc: Global, seed: u64, len: usize) -> Result<Vec<u8>, Fail> {
    let mut bytes = vec![in alloc; 0; len]?;
    mask(&sha_two(b"psb file", &seed.to_be_bytes()), 0, &mut bytes);
    Ok(bytes)
}

fn sealed(alloc: Global, plain: &[u8]) -> Result<Sealed, Fail> {
    if plain.is_empty() || plain.len() > LONGEST_CHUNK as usize {
        return Err(Fail::from("1 to 32,768 bytes"));
    }
    Ok(seal(alloc, plain).ok().ok_or("memory")?)
}

#[test]
fn pieces_seal_and_open_as_computed_outside(rt: HostRuntime) -> Result<(), Fail> {
    let rows = [
        (
            1,
            1,
            "98722e2ebed8ed3d3652e11e4181f0dccc1ce7d192d8f1db370af8ec4a4e174a",
            "4d4d75d742863ab9656f3d5f76dff8589c3922e95a24ea6812157ffe4aaa3b6b",
        ),
        (
            1,
            63,
            "21a1c7ffdd989cc99d411091176f528b093f56b58a5afa67688c47b91c88c647",
            "ee9300bc0fe39b5c8ef529ce6b7ec2b66d110cc3fcc7abddc211d1bf5dfebba3",
        ),
        (
            1,
            64,
            "dbd78999c1c66dc67073c4d810e508e215a8d08dcdebd5d7157cc804e2af06e9",
            "db2b0e57d5c2f33ecba1a5cd33ec7c79d92bf58718b9fc9dfbfa29a42922a8a8",
        ),
        (
            1,
            65,
            "c551855c2a90b55392608d99532632297a5101633f59f6c2fa63d011acf0ba32",
            "e2222cce6cc0f42e2885d8e12bcec020b9061e35d2e534bdbe02dd9492971b30",
        ),
        (
            1,
            512,
            "900e288f2b8a408f3d5c40c2c28ca6e1ebb2fb95b81c63d70004789101cbe86b",
            "1cd9d2228fe9b2263a12846cd82caeac32299905d02000298a9ecfbdffb03dd0",
        ),
        (
            4,
            32_767,
            "50616d865681c3df657f299a8ca2376ca0db5999916ebda40a43b6b1831b2fb4",
            "738239f77c51875b5e5d818fa96f589bdf052ed19a627b1ca1867e83400b751f",
        ),
        (
            5,
            32_768,
            "cceb09c8d7914a93c5d81d33a777b4f84bcb88bb56d6095a25b0fe1b36eb0978",
            "fec0f573febe6b6ed729536cd554454c93dbcc48292c9a2907a082c006db6573",
        ),
    ];
    for (seed, len, handle, name) in rows {
        let plain = stream(rt.alloc(), seed, len)?;
        let piece = sealed(rt.alloc(), &plain)?;
        let reference = piece.reference();
        assert_eq!(rt; Some(reference.handle), read_digest(handle), "{len} bytes");
        assert_eq!(rt; Some(reference.name), read_digest(name), "{len} bytes");
        assert_eq!(rt; reference.len as usize, len);
        assert_eq!(rt; piece.body().len(), len);
        let opened = open(rt.alloc(), reference, piece.body())
            .ok()
            .ok_or("opens")?;
        assert_eq!(rt; opened, plain, "{len} bytes");
    }
    Ok(())
}

#[test]
fn what_the_ref_does_not_name_is_altered(rt: HostRuntime) -> Result<(), Fail> {
    let plain = stream(rt.alloc(), 1, 65)?;
    let piece = sealed(rt.alloc(), &plain)?;
    let Ref { name, handle, len } = *piece.reference();
    let body = piece.body();
    let mut changed = body.to_vec(rt.alloc())?;
    if let Some(first) = changed.first_mut() {
        *first ^= 1;
    }
    let mut longer = body.to_vec(rt.alloc())?;
    longer.push(0)?;
    let shorter = body.get(..64).ok_or("64 bytes")?;
    let rows: [(&str, Digest, u32, &[u8]); 7] = [
        ("its first byte changed", name, len, &changed),
        ("one byte shorter", name, len, shorter),
        ("one byte longer", name, len, &longer),
        ("nothing", name, len, b""),
        ("a length of one less", name, 64, body),
        ("a length of one more", name, 66, body),
        ("another name", handle, len, body),
    ];
    for (what, name, len, body) in rows {
        let reference = Ref { name, handle, len };
        let answer = open(rt.alloc(), &reference, body);
        assert_eq!(rt; answer.err(), Some(OpenError::Altered), "{what}");
    }
    Ok(())
}

#[test]
fn another_handle_opens_to_other_bytes(rt: HostRuntime) -> Result<(), Fail> {
    let plain = stream(rt.alloc(), 1, 65)?;
    let piece = sealed(rt.alloc(), &plain)?;
    let handle = Digest([0; 32]);
    let reference = Ref {
        handle,
        ..*piece.reference()
    };
    let opened = open(rt.alloc(), &reference, piece.body())
        .ok()
        .ok_or("opens")?;
    let mut want = piece.body().to_vec(rt.alloc())?;
    mask(&sha_two(b"psb key", &handle.0), 0, &mut want);
    assert_eq!(rt; opened, want);
    assert!(rt; opened != plain);
    Ok(())
}
