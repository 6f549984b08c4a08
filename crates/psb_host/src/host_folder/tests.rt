use super::*;
use crate::Unknown;
use psb_station::Kind;
use std::os::unix::fs::symlink;
use std::test::Fail;
use std::{env, process};

/// A new folder of the machine, which no other run of these tests has. The node's own file is `disk` in it.
#[derive(Drop)]
struct Home<'a> {
    rt: &'a HostRuntime,
    path: String,
    folder: HostFolder<&'a HostRuntime, Unknown>,
}

/// Whether the items are those of a table, in its order.
fn are(items: &[Item], table: &[(&str, Kind)]) -> bool {
    items.len() == table.len()
        && items.iter().zip(table).all(|(item, row)| item.name.as_str() == row.0
            && item.kind == row.1)
}

impl<'a> Home<'a> {
    fn new(rt: &'a HostRuntime, name: &str) -> Result<Home<'a>, Fail> {
        let above = env::temp_dir(rt)?;
        let id = process::id(rt.process());
        let path = format!(in rt.alloc(); "{}/psb-{id}-{name}", above.as_str())?;
        fs::create_dir(rt, path.as_str())?;
        let disk = format!(in rt.alloc(); "{}/disk", path.as_str())?;
        let folder = HostFolder::new(rt.alloc(), rt, disk, Unknown);
        Ok(Home { rt, path, folder })
    }

    /// The path of a name in it.
    fn at(&self, name: &str) -> Result<String, Fail> {
        let path = self.path.as_str();
        Ok(format!(in self.rt.alloc(); "{path}/{name}")?)
    }

    fn make_folder(&mut self, name: &str) -> Result<Result<(), Failed>, Fail> {
        let path = self.at(name)?;
        Ok(self.folder.make_folder(path.as_str()))
    }

    fn make_file(&mut self, name: &str) -> Result<Result<(), Failed>, Fail> {
        let path = self.at(name)?;
        Ok(self.folder.make_file(path.as_str()))
    }

    fn append(&mut self, name: &str, piece: &[u8]) -> Result<Result<(), Failed>, Fail> {
        let path = self.at(name)?;
        Ok(self.folder.append(path.as_str(), piece))
    }

    fn read(
        &mut self,
        name: &str,
        at: u64,
        into: &mut [u8],
    ) -> Result<Result<usize, Failed>, Fail> {
        let path = self.at(name)?;
        Ok(self.folder.read_piece(path.as_str(), at, into))
    }

    fn link(&self, name: &str, to: &str) -> Result<(), Fail> {
        let path = self.at(name)?;
        symlink(self.rt, to, path.as_str())?;
        Ok(())
    }

    fn lists(&mut self, name: &str, table: &[(&str, Kind)]) -> Result<bool, Fail> {
        let path = self.at(name)?;
        match self.folder.list(path.as_str()) {
            Ok(items) => Ok(are(&items, table)),
            Err(_) => Ok(false),
        }
    }

    fn remove(&self) -> Result<(), Fail> {
        fs::remove_dir_all(self.rt, self.path.as_str())?;
        Ok(())
    }
}

#[test]
fn a_folder_lists_what_stands_in_it(rt: HostRuntime) -> Result<(), Fail> {
    let mut home = Home::new(&rt, "list")?;
    assert!(rt; home.lists(".", &[])?);
    assert_eq!(rt; home.make_folder("d")?, Ok(()));
    assert_eq!(rt; home.make_file("b")?, Ok(()));
    assert_eq!(rt; home.make_file(".hidden")?, Ok(()));
    home.link("c", "b")?;
    home.link("a", "d")?;
    home.link("e", "gone")?;
    let table = [
        (".hidden", Kind::File),
        ("a", Kind::Other),
        ("b", Kind::File),
        ("c", Kind::Other),
        ("d", Kind::Folder),
        ("e", Kind::Other),
    ];
    assert!(rt; home.lists(".", &table)?);
    assert!(rt; home.lists("d", &[])?);
    assert!(rt; home.lists("d/", &[])?);
    home.remove()
}

#[test]
fn the_own_file_of_the_node_is_no_file(rt: HostRuntime) -> Result<(), Fail> {
    let mut home = Home::new(&rt, "own")?;
    assert_eq!(rt; home.make_folder("d")?, Ok(()));
    assert_eq!(rt; home.make_file("disk")?, Ok(()));
    assert_eq!(rt; home.make_file("file")?, Ok(()));
    fs::hard_link(&rt, home.at("disk")?.as_str(), home.at("d/link")?.as_str())?;
    let table = [
        ("d", Kind::Folder),
        ("disk", Kind::Other),
        ("file", Kind::File),
    ];
    assert!(rt; home.lists(".", &table)?);
    assert!(rt; home.lists("d", &[("link", Kind::Other)])?);
    assert_eq!(rt; home.read("disk", 0, &mut [0; 4])?, Err(Failed));
    assert_eq!(rt; home.append("d/link", &[1])?, Err(Failed));
    home.remove()
}

#[test]
fn a_link_is_not_followed(rt: HostRuntime) -> Result<(), Fail> {
    let mut home = Home::new(&rt, "link")?;
    assert_eq!(rt; home.make_folder("folder")?, Ok(()));
    assert_eq!(rt; home.make_file("file")?, Ok(()));
    assert_eq!(rt; home.append("file", b"kept")?, Ok(()));
    home.link("to-file", "file")?;
    home.link("to-folder", "folder")?;
    let mut into = [0; 8];
    assert_eq!(rt; home.read("to-file", 0, &mut into)?, Err(Failed));
    assert_eq!(rt; home.append("to-file", b"more")?, Err(Failed));
    assert!(rt; !home.lists("to-folder", &[])?);
    assert!(rt; !home.lists("to-folder/", &[])?);
    assert_eq!(rt; home.read("file", 0, &mut into)?, Ok(4));
    assert_eq!(rt; into, [b'k', b'e', b'p', b't', 0, 0, 0, 0]);
    home.remove()
}

#[test]
fn a_file_grows_and_is_read_in_pieces(rt: HostRuntime) -> Result<(), Fail> {
    let mut home = Home::new(&rt, "pieces")?;
    let mut into = [0; 4];
    assert_eq!(rt; home.make_file("file")?, Ok(()));
    assert_eq!(rt; home.read("file", 0, &mut into)?, Ok(0));
    assert_eq!(rt; home.append("file", &[1, 2, 3, 4])?, Ok(()));
    assert_eq!(rt; home.append("file", &[5, 6, 7])?, Ok(()));
    assert_eq!(rt; home.read("file", 0, &mut into)?, Ok(4));
    assert_eq!(rt; into, [1, 2, 3, 4]);
    assert_eq!(rt; home.read("file", 4, &mut into)?, Ok(3));
    assert_eq!(rt; into, [5, 6, 7, 4]);
    assert_eq!(rt; home.read("file", 7, &mut into)?, Ok(0));
    assert_eq!(rt; home.read("file", 100, &mut into)?, Ok(0));
    // More than one call of the system may write.
    let many = vec![in rt.alloc(); 8u8; 100_000]?;
    assert_eq!(rt; home.append("file", &many)?, Ok(()));
    assert_eq!(rt; home.read("file", 100_004, &mut into)?, Ok(3));
    assert_eq!(rt; into, [8, 8, 8, 4]);
    home.remove()
}

#[test]
fn what_is_there_is_not_made_again(rt: HostRuntime) -> Result<(), Fail> {
    let mut home = Home::new(&rt, "again")?;
    assert_eq!(rt; home.make_file("file")?, Ok(()));
    home.link("link", "gone")?;
    for there in [".", "file", "link", "gone/inner"] {
        assert_eq!(rt; home.make_folder(there)?, Err(Failed));
        assert_eq!(rt; home.make_file(there)?, Err(Failed));
    }
    let table = [("file", Kind::File), ("link", Kind::Other)];
    assert!(rt; home.lists(".", &table)?);
    home.remove()
}

#[test]
fn each_call_at_a_wrong_path_fails(rt: HostRuntime) -> Result<(), Fail> {
    let mut home = Home::new(&rt, "wrong")?;
    assert_eq!(rt; home.make_file("file")?, Ok(()));
    let mut into = [0; 4];
    for none in [".", "gone", "file/inner"] {
        assert_eq!(rt; home.read(none, 0, &mut into)?, Err(Failed));
        assert_eq!(rt; home.append(none, &[1])?, Err(Failed));
    }
    assert!(rt; !home.lists("gone", &[])?);
    assert!(rt; !home.lists("file", &[])?);
    home.remove()
}
