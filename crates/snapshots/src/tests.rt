use crate::{ChunkReader, refs_of_text};
use psb_station::{Failed, MemFolder};
use rolling_chunks::{Span, cut_all};
use std::alloc::Global;
use std::test::Fail;

mod walking;
mod writing;

// Whether the refs of a text have these lengths, names and handles.
fn has_refs(alloc: Global, text: &[u8], rows: &[(u32, &str, &str)]) -> Result<bool, Fail> {
    let refs = refs_of_text(alloc, text).ok().ok_or("memory")?;
    let refs = refs.as_slice();
    if refs.len() != rows.len() {
        return Ok(false);
    }
    for i in 0..rows.len() {
        let (len, name, handle) = rows[i];
        let named = psb_bytes::read_digest(name) == Some(refs[i].name);
        let handled = psb_bytes::read_digest(handle) == Some(refs[i].handle);
        if !named || !handled || refs[i].len != len {
            return Ok(false);
        }
    }
    Ok(true)
}

#[test]
fn texts_have_the_refs_that_were_computed_outside(rt: HostRuntime) -> Result<(), Fail> {
    let alloc = rt.alloc();
    let abc = (
        3,
        "915c5a006d384a745f0801d7bb2b7fbcf03dcd3130ba55c6470e232755d3bced",
        "ba7816bf8f01cfea414140de5dae2223b00361a396177a9cb410ff61f20015ad",
    );
    let longest = (
        32_768,
        "60ba19540aa4885f70c812d8801102bcbdd173d1a1b2bb0548b35788b058a2f0",
        "c35020473aed1b4642cd726cad727b63fff2824ad68cedd7ffb73c7cbd890479",
    );
    let rest = (
        7_232,
        "b67ea6eef73e6f4e27ba0a430da5150606a94c4e3d310fd6c5ac43babf582d32",
        "73157131c5633504c755589305faa3460753f6df5011b08f0cc40f5ccf0b276e",
    );
    let zeros = vec![in alloc; 0u8; 40_000]?;
    assert!(rt; has_refs(alloc, b"", &[])?);
    assert!(rt; has_refs(alloc, b"abc", &[abc])?);
    assert!(rt; has_refs(alloc, &zeros, &[longest, rest])?);
    assert!(rt; !has_refs(alloc, b"abd", &[abc])?);
    Ok(())
}

// Bytes that have cuts by their content: a running sum that wraps.
fn bytes_of(alloc: Global, len: usize) -> Result<Vec<u8>, Fail> {
    let mut text = vec![in alloc; 0u8; len]?;
    let mut state: u32 = 1;
    for byte in text.iter_mut() {
        state = state.wrapping_mul(1_664_525).wrapping_add(1_013_904_223);
        *byte = (state >> 24) as u8;
    }
    Ok(text)
}

// A folder with this file alone, whose calls of these numbers fail.
fn folder_of(alloc: Global, faults: Vec<u64>, bytes: &[u8]) -> Result<MemFolder, Fail> {
    let mut folder = MemFolder::new(alloc, faults);
    if !folder.takes_file("f") {
        return Err("taken".into());
    }
    folder.put_file("f", bytes).ok().ok_or("memory")?;
    Ok(folder)
}

// Whether the reader gives the chunks that the whole text is cut into, and then none. No text here
// has as many as twenty.
fn gives_chunks(
    reader: &mut ChunkReader,
    folder: &mut MemFolder,
    text: &[u8],
    spans: &[Span],
) -> bool {
    reader.restart();
    for i in 0..20usize {
        let given = reader.next(folder, "f");
        let Some(span) = spans.get(i) else {
            return given == Ok(false);
        };
        let want = text.get(span.start..span.start.wrapping_add(span.len));
        if given != Ok(true) || want != Some(reader.chunk()) {
            return false;
        }
    }
    false
}

// Whether the reader gives two chunks, and then fails.
fn fails_behind_two(reader: &mut ChunkReader, folder: &mut MemFolder) -> bool {
    reader.restart();
    let first = reader.next(folder, "f");
    let second = reader.next(folder, "f");
    let third = reader.next(folder, "f");
    first == Ok(true) && second == Ok(true) && third == Err(Failed)
}

#[test]
fn files_are_read_in_their_chunks(rt: HostRuntime) -> Result<(), Fail> {
    let alloc = rt.alloc();
    let mut reader = ChunkReader::new(alloc).ok().ok_or("memory")?;
    for len in [0, 1, 2_048, 32_768, 40_000, 65_536, 70_000] {
        let text = bytes_of(alloc, len)?;
        let zeros = vec![in alloc; 0u8; len]?;
        for bytes in [text.as_slice(), zeros.as_slice()] {
            let spans = cut_all(alloc, bytes).ok().ok_or("memory")?;
            let mut folder = folder_of(alloc, Vec::new(alloc), bytes)?;
            assert!(rt;
                gives_chunks(&mut reader, &mut folder, bytes, &spans),
                "of {len} bytes"
            );
        }
    }
    Ok(())
}

#[test]
fn a_failed_read_is_no_end(rt: HostRuntime) -> Result<(), Fail> {
    let alloc = rt.alloc();
    let text = vec![in alloc; 0u8; 70_000]?;
    let spans = cut_all(alloc, &text).ok().ok_or("memory")?;
    let mut folder = folder_of(alloc, vec![in alloc; 2]?, &text)?;
    let mut reader = ChunkReader::new(alloc).ok().ok_or("memory")?;
    assert!(rt; fails_behind_two(&mut reader, &mut folder));
    assert!(rt; gives_chunks(&mut reader, &mut folder, &text, &spans));
    Ok(())
}

#[test]
fn nothing_is_read_behind_the_end(rt: HostRuntime) -> Result<(), Fail> {
    let alloc = rt.alloc();
    let mut folder = folder_of(alloc, vec![in alloc; 3]?, b"a")?;
    let mut reader = ChunkReader::new(alloc).ok().ok_or("memory")?;
    assert_eq!(rt; reader.next(&mut folder, "f"), Ok(true));
    assert_eq!(rt; reader.chunk(), b"a".as_slice());
    assert_eq!(rt; reader.next(&mut folder, "f"), Ok(false));
    assert_eq!(rt; reader.next(&mut folder, "f"), Ok(false));
    reader.restart();
    assert_eq!(rt; reader.next(&mut folder, "f"), Err(Failed));
    Ok(())
}
