use crate::{CallKind, Failed, Folder, FolderError, Item, Kind, MemFolder, Planned};
use psb_bytes::Memory;
use std::alloc::Global;

fn put(folder: &mut MemFolder, path: &str, bytes: &[u8]) -> Result<(), Memory> {
    if folder.takes_file(path) {
        folder.put_file(path, bytes)?;
    }
    Ok(())
}

/// A folder with a file of six bytes two folders down, an empty folder, and an empty file.
fn home(alloc: Global, faults: Vec<u64>) -> Result<MemFolder, Memory> {
    let mut folder = MemFolder::new(alloc, faults);
    put(&mut folder, "a/b/six", &[1, 2, 3, 4, 5, 6])?;
    put(&mut folder, "none", &[])?;
    if folder.takes_folder("a/c") {
        folder.put_folder("a/c")?;
    }
    Ok(folder)
}

/// Whether the items are those of a table, in its order.
fn are(items: &[Item], table: &[(&str, Kind)]) -> bool {
    items.len() == table.len()
        && items.iter().zip(table).all(|(item, row)| item.name.as_str() == row.0
            && item.kind == row.1)
}

fn lists(folder: &mut MemFolder, path: &str, table: &[(&str, Kind)]) -> bool {
    match folder.list(path) {
        Ok(items) => are(&items, table),
        Err(_) => false,
    }
}

/// Whether a file has these bytes and ends with them.
fn holds(folder: &mut MemFolder, path: &str, bytes: &[u8]) -> bool {
    let mut into = [0; 8];
    match folder.read_piece(path, 0, &mut into) {
        Ok(count) => count <= 8 && &into[..count] == bytes,
        Err(_) => false,
    }
}

#[test]
fn the_folders_above_what_is_put_are_made(rt: HostRuntime) -> Result<(), Memory> {
    let alloc = rt.alloc();
    let mut folder = home(alloc, Vec::new(alloc))?;
    assert!(rt;
        lists(
            &mut folder,
            ".",
            &[("a", Kind::Folder), ("none", Kind::File)]
        )
    );
    assert!(rt;
        lists(
            &mut folder,
            "a",
            &[("b", Kind::Folder), ("c", Kind::Folder)]
        )
    );
    assert!(rt; lists(&mut folder, "a/b", &[("six", Kind::File)]));
    assert!(rt; lists(&mut folder, "a/c", &[]));
    Ok(())
}

#[test]
fn what_is_put_again_takes_the_place_of_the_older(rt: HostRuntime) -> Result<(), Memory> {
    let alloc = rt.alloc();
    let mut folder = home(alloc, Vec::new(alloc))?;
    put(&mut folder, "a/b/six", &[9])?;
    put(&mut folder, "/none", &[8, 7])?;
    assert!(rt; holds(&mut folder, "a/b/six", &[9]));
    assert!(rt; holds(&mut folder, "none", &[8, 7]));
    assert!(rt; folder.takes_folder("a/c"));
    folder.put_folder("a/c")?;
    assert!(rt;
        lists(
            &mut folder,
            "a",
            &[("b", Kind::Folder), ("c", Kind::Folder)]
        )
    );
    Ok(())
}

#[test]
fn nothing_is_put_over_or_below_the_other_kind(rt: HostRuntime) -> Result<(), Memory> {
    let alloc = rt.alloc();
    let folder = home(alloc, Vec::new(alloc))?;
    for path in ["a", "a/b", ".", "none/x", "a/b/six/x/y"] {
        assert!(rt; !folder.takes_file(path), "a file at {path}");
    }
    for path in ["none", "a/b/six", "none/x", "./none/x/y"] {
        assert!(rt; !folder.takes_folder(path), "a folder at {path}");
    }
    Ok(())
}

#[test]
fn a_file_is_read_in_pieces(rt: HostRuntime) -> Result<(), Memory> {
    let alloc = rt.alloc();
    let mut folder = home(alloc, Vec::new(alloc))?;
    let mut into = [0; 4];
    assert_eq!(rt; folder.read_piece("a/b/six", 0, &mut into), Ok(4));
    assert_eq!(rt; into, [1, 2, 3, 4]);
    assert_eq!(rt; folder.read_piece("a/b/six", 4, &mut into), Ok(2));
    assert_eq!(rt; into, [5, 6, 3, 4]);
    assert_eq!(rt; folder.read_piece("a/b/six", 3, &mut into), Ok(3));
    assert_eq!(rt; into, [4, 5, 6, 4]);
    for at in [6, 7, u64::MAX] {
        assert_eq!(rt; folder.read_piece("a/b/six", at, &mut into), Ok(0));
    }
    assert_eq!(rt; folder.read_piece("none", 0, &mut into), Ok(0));
    assert_eq!(rt; folder.folder_faults, 0);
    Ok(())
}

#[test]
fn folders_and_files_are_made_and_grow(rt: HostRuntime) -> Result<(), Memory> {
    let alloc = rt.alloc();
    let mut folder = MemFolder::new(alloc, Vec::new(alloc));
    assert_eq!(rt; folder.make_folder("a"), Ok(()));
    assert_eq!(rt; folder.make_folder("a/b"), Ok(()));
    assert_eq!(rt; folder.make_file("a/f"), Ok(()));
    assert!(rt; holds(&mut folder, "a/f", &[]));
    assert_eq!(rt; folder.append("a/f", &[1, 2]), Ok(()));
    assert_eq!(rt; folder.append("a/f", &[]), Ok(()));
    assert_eq!(rt; folder.append("a/f", &[3]), Ok(()));
    assert!(rt; holds(&mut folder, "a/f", &[1, 2, 3]));
    assert!(rt; lists(&mut folder, "a", &[("b", Kind::Folder), ("f", Kind::File)]));
    assert_eq!(rt; folder.folder_faults, 0);
    Ok(())
}

#[test]
fn a_leading_dot_or_slash_reads_as_nothing(rt: HostRuntime) -> Result<(), Memory> {
    let alloc = rt.alloc();
    let mut folder = home(alloc, Vec::new(alloc))?;
    let root = [("a", Kind::Folder), ("none", Kind::File)];
    for path in [".", "", "/", "./", "./.", "/./", "//"] {
        assert!(rt; lists(&mut folder, path, &root), "the root as {path}");
    }
    for path in ["a/b/six", "./a/b/six", "/a/b/six", "././/a/b/six"] {
        assert!(rt;
            holds(&mut folder, path, &[1, 2, 3, 4, 5, 6]),
            "the file as {path}"
        );
    }
    assert_eq!(rt; folder.make_folder("./d"), Ok(()));
    assert_eq!(rt; folder.make_folder("/d"), Err(Failed));
    Ok(())
}

#[test]
fn a_wrong_path_is_refused_and_counted(rt: HostRuntime) -> Result<(), Memory> {
    let alloc = rt.alloc();
    let mut folder = home(alloc, Vec::new(alloc))?;
    let mut into = [0; 4];
    for path in ["none", "a/b/six", "x", "a/x", "a/", "A", ".."] {
        assert!(rt;
            matches!(folder.list(path), Err(FolderError::Failed)),
            "list {path}"
        );
    }
    assert_eq!(rt; folder.folder_faults, 7);
    for path in [".", "a", "a/c", "x", "none/x", "a/b/si", "a/b/six/"] {
        assert_eq!(rt;
            folder.read_piece(path, 0, &mut into),
            Err(Failed),
            "read {path}"
        );
        assert_eq!(rt; folder.append(path, &[1]), Err(Failed), "append {path}");
    }
    assert_eq!(rt; folder.folder_faults, 21);
    for path in [
        ".",
        "a",
        "a/c",
        "none",
        "x/y",
        "none/x",
        "a/b/six/x",
        "a/b/x/y",
    ] {
        assert_eq!(rt; folder.make_folder(path), Err(Failed), "folder {path}");
        assert_eq!(rt; folder.make_file(path), Err(Failed), "file {path}");
    }
    assert_eq!(rt; folder.folder_faults, 37);
    assert!(rt;
        lists(
            &mut folder,
            ".",
            &[("a", Kind::Folder), ("none", Kind::File)]
        )
    );
    assert!(rt;
        lists(
            &mut folder,
            "a",
            &[("b", Kind::Folder), ("c", Kind::Folder)]
        )
    );
    assert!(rt; holds(&mut folder, "a/b/six", &[1, 2, 3, 4, 5, 6]));
    Ok(())
}

/// Each of the five calls once, at a path where it does not fail; and how many failed.
fn call_each(folder: &mut MemFolder) -> [bool; 5] {
    let mut into = [0; 4];
    [
        folder.list("a").is_err(),
        folder.read_piece("a/b/six", 0, &mut into).is_err(),
        folder.make_folder("a/d").is_err(),
        folder.make_file("a/e").is_err(),
        folder.append("none", &[1]).is_err(),
    ]
}

#[test]
fn the_calls_are_kept_in_their_order(rt: HostRuntime) -> Result<(), Memory> {
    let alloc = rt.alloc();
    let mut folder = home(alloc, Vec::new(alloc))?;
    let fails = call_each(&mut folder);
    assert_eq!(rt; fails, [false; 5]);
    let paths = ["a", "a/b/six", "a/d", "a/e", "none"];
    assert_eq!(rt; folder.log.tried.len(), 5);
    for (i, path) in paths.iter().enumerate() {
        assert_eq!(rt; folder.log.tried.content(i), path.as_bytes());
    }
    assert!(rt; folder.log.whole);
    let kind = CallKind::List;
    folder.plan(vec![in alloc; Planned { kind, number: 1 }]?);
    let fails = call_each(&mut folder);
    assert_eq!(rt; fails, [true, false, true, true, false]);
    assert_eq!(rt; folder.folder_faults, 3);
    Ok(())
}

#[test]
fn a_name_is_what_may_stand_in_a_path(rt: HostRuntime) -> Result<(), Memory> {
    let alloc = rt.alloc();
    let mut folder = MemFolder::new(alloc, Vec::new(alloc));
    for path in ["a//b", "a/./b", "a/../b", "a/b", "a/...", "a/ "] {
        put(&mut folder, path, &[1])?;
    }
    let names = [(" ", Kind::File), ("...", Kind::File), ("b", Kind::File)];
    assert!(rt; lists(&mut folder, "a", &names));
    assert!(rt; lists(&mut folder, "a/.", &[("b", Kind::File)]));
    Ok(())
}

#[test]
fn the_paths_ascend(rt: HostRuntime) -> Result<(), Memory> {
    let alloc = rt.alloc();
    let folder = home(alloc, Vec::new(alloc))?;
    let paths = folder.paths()?;
    let wants = ["a", "a/b", "a/b/six", "a/c", "none"];
    assert_eq!(rt; paths.len(), 5);
    assert!(rt;
        paths
            .iter()
            .zip(&wants)
            .all(|(path, want)| path.as_str() == *want)
    );
    assert_eq!(rt; folder.file("a/b/six"), Some([1, 2, 3, 4, 5, 6].as_slice()));
    assert_eq!(rt; folder.file("a/c"), None);
    Ok(())
}

#[test]
fn what_is_made_is_found_in_whatever_order_it_came(rt: HostRuntime) -> Result<(), Memory> {
    let alloc = rt.alloc();
    let mut folder = MemFolder::new(alloc, Vec::new(alloc));
    for path in ["m", "c", "x", "a", "p", "cc", "b"] {
        assert_eq!(rt; folder.make_file(path), Ok(()), "make {path}");
        assert_eq!(rt;
            folder.append(path, path.as_bytes()),
            Ok(()),
            "append {path}"
        );
        assert_eq!(rt; folder.make_file(path), Err(Failed), "make {path} again");
    }
    for path in ["a", "b", "c", "cc", "m", "p", "x"] {
        assert!(rt; holds(&mut folder, path, path.as_bytes()), "read {path}");
    }
    let paths = folder.paths()?;
    let wants = ["a", "b", "c", "cc", "m", "p", "x"];
    assert_eq!(rt; paths.len(), 7);
    assert!(rt;
        paths
            .iter()
            .zip(&wants)
            .all(|(path, want)| path.as_str() == *want)
    );
    Ok(())
}
