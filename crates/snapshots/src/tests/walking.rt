use crate::{WalkFault, Walked, walk};
use psb_station::MemFolder;
use skeleton::EntryKind;
use skeleton::EntryKind::{File, Folder};
use std::alloc::Global;
use std::test::Fail;

// A folder in memory with these paths: a folder where one ends in `/`, a file of one byte elsewhere.
fn folder_of(alloc: Global, faults: &[u64], paths: &[&str]) -> Result<MemFolder, Fail> {
    let mut folder = MemFolder::new(alloc, Vec::from_slice(alloc, faults)?);
    for path in paths {
        match path.strip_suffix('/') {
            Some(path) => {
                if folder.takes_folder(path) {
                    folder.put_folder(path).ok().ok_or("memory")?;
                }
            }
            None => {
                if folder.takes_file(path) {
                    folder.put_file(path, &[7]).ok().ok_or("memory")?;
                }
            }
        }
    }
    Ok(folder)
}

fn are(walked: &Walked, rows: &[(&str, EntryKind)]) -> bool {
    walked.found.len() == rows.len()
        && walked.found.iter().zip(rows).all(|(found, row)| found.path.as_str() == row.0
            && found.kind == row.1)
}

// Whether a walk finds these, and so many bytes of a text.
fn finds(
    alloc: Global,
    paths: &[&str],
    root: &str,
    rows: &[(&str, EntryKind)],
    text_len: usize,
) -> Result<bool, Fail> {
    let mut folder = folder_of(alloc, &[], paths)?;
    let walked = walk(alloc, &mut folder, root).ok().ok_or("no walk")?;
    Ok(are(&walked, rows) && walked.left == 0 && walked.text_len == text_len)
}

fn fault(
    alloc: Global,
    faults: &[u64],
    paths: &[&str],
    root: &str,
) -> Result<Option<WalkFault>, Fail> {
    let mut folder = folder_of(alloc, faults, paths)?;
    Ok(walk(alloc, &mut folder, root).err())
}

#[test]
fn a_walk_finds_what_stands_below_a_folder(rt: HostRuntime) -> Result<(), Fail> {
    let alloc = rt.alloc();
    assert!(rt; finds(alloc, &[], ".", &[], 12)?);
    assert!(rt; finds(alloc, &["f"], ".", &[("f", File)], 28)?);
    assert!(rt; finds(alloc, &["a/"], ".", &[("a", Folder)], 16)?);
    let paths = ["a/b/f", "a/c/", "none", "a/b/g"];
    let rows = [
        ("a", Folder),
        ("a/b", Folder),
        ("a/b/f", File),
        ("a/b/g", File),
        ("a/c", Folder),
        ("none", File),
    ];
    assert!(rt; finds(alloc, &paths, ".", &rows, 87)?);
    let rows = [("b", Folder), ("b/f", File), ("b/g", File), ("c", Folder)];
    assert!(rt; finds(alloc, &paths, "a", &rows, 56)?);
    Ok(())
}

#[test]
fn paths_stand_in_the_order_of_their_bytes(rt: HostRuntime) -> Result<(), Fail> {
    let alloc = rt.alloc();
    let paths = ["a/b", "b", "a.txt", "a0", "é", "B"];
    let rows = [
        ("B", File),
        ("a", Folder),
        ("a.txt", File),
        ("a/b", File),
        ("a0", File),
        ("b", File),
        ("é", File),
    ];
    assert!(rt; finds(alloc, &paths, ".", &rows, 120)?);
    Ok(())
}

#[test]
fn a_folder_that_fails_or_is_none_is_a_fault(rt: HostRuntime) -> Result<(), Fail> {
    let alloc = rt.alloc();
    let paths = ["a/b/f", "c"];
    assert_eq!(rt; fault(alloc, &[], &paths, ".")?, None);
    assert_eq!(rt; fault(alloc, &[1], &paths, ".")?, Some(WalkFault::Folder));
    assert_eq!(rt; fault(alloc, &[3], &paths, ".")?, Some(WalkFault::Folder));
    assert_eq!(rt; fault(alloc, &[4], &paths, ".")?, None);
    assert_eq!(rt; fault(alloc, &[], &paths, "c")?, Some(WalkFault::Folder));
    assert_eq!(rt; fault(alloc, &[], &paths, "d")?, Some(WalkFault::Folder));
    Ok(())
}

#[test]
fn a_path_has_at_most_4096_bytes(rt: HostRuntime) -> Result<(), Fail> {
    let alloc = rt.alloc();
    let most = "n".repeat(alloc, 4_096)?;
    let more = "n".repeat(alloc, 4_097)?;
    assert!(rt;
        finds(
            alloc,
            &[most.as_str()],
            ".",
            &[(most.as_str(), File)],
            4_123
        )?
    );
    assert_eq!(rt;
        fault(alloc, &[], &[more.as_str()], ".")?,
        Some(WalkFault::TooLarge)
    );
    let nested = format!(in alloc; "{most}/f")?;
    assert_eq!(rt;
        fault(alloc, &[], &[nested.as_str()], ".")?,
        Some(WalkFault::TooLarge)
    );
    assert_eq!(rt; fault(alloc, &[], &[nested.as_str()], most.as_str())?, None);
    Ok(())
}
