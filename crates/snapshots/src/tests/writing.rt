use crate::{WriteFault, add_piece, is_empty, make_place};
use psb_station::MemFolder;
use skeleton::EntryKind;
use std::alloc::Global;
use std::test::Fail;

// Makes a place below the folder `top`, and answers whether it stands at this path.
fn makes(alloc: Global, folder: &mut MemFolder, path: &str, kind: EntryKind, at: &str) -> bool {
    match make_place(alloc, folder, "top", path, kind) {
        Ok(text) => text.as_str() == at,
        Err(_) => false,
    }
}

#[test]
fn a_tree_is_written_place_by_place(rt: HostRuntime) -> Result<(), Fail> {
    let alloc = rt.alloc();
    let mut folder = MemFolder::new(alloc, Vec::new(alloc));
    assert!(rt; make_place(alloc, &mut folder, ".", "top", EntryKind::Folder).is_ok());
    assert_eq!(rt; is_empty(&mut folder, "top"), Ok(true));
    assert!(rt; makes(alloc, &mut folder, "a", EntryKind::Folder, "top/a"));
    assert!(rt; makes(alloc, &mut folder, "a/b", EntryKind::File, "top/a/b"));
    assert_eq!(rt; add_piece(&mut folder, "top/a/b", b"one "), Ok(()));
    assert_eq!(rt; add_piece(&mut folder, "top/a/b", b"two"), Ok(()));
    assert_eq!(rt; folder.file("top/a/b"), Some(b"one two".as_slice()));
    assert_eq!(rt; is_empty(&mut folder, "top"), Ok(false));
    assert_eq!(rt; is_empty(&mut folder, "top/a/b"), Err(WriteFault::Folder));
    assert!(rt; !makes(alloc, &mut folder, "a", EntryKind::File, "top/a"));
    assert!(rt; !makes(alloc, &mut folder, "c/d", EntryKind::File, "top/c/d"));
    assert_eq!(rt;
        add_piece(&mut folder, "top/a", b"no"),
        Err(WriteFault::Folder)
    );
    Ok(())
}
