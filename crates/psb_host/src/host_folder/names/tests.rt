use super::*;
use std::alloc::Allocator;
use std::fs::{File, Metadata, OpenOptions};
use std::io;
use std::io::ErrorKind;

/// A system whose one folder gives these names, each ended by a NUL.
#[derive(Clone, Copy, Drop)]
struct Given {
    alloc: Global,
    names: &'static [u8],
}

impl Alloc for Given {
    type A = Global;

    fn alloc(&self) -> Global {
        self.alloc
    }
}

fn refused<T>() -> io::Result<T> {
    Err(io::Error::from(ErrorKind::Unsupported))
}

impl Files for Given {
    type File = File;

    type Dir = &'static [u8];

    fn open_file(&self, _how: &OpenOptions, _path: &str) -> io::Result<File> {
        refused()
    }

    fn open_dir(&self, _path: &str) -> io::Result<&'static [u8]> {
        Ok(self.names)
    }

    fn metadata(&self, _path: &str) -> io::Result<Metadata> {
        Ok(Metadata::of_dir())
    }

    fn symlink_metadata(&self, _path: &str) -> io::Result<Metadata> {
        Ok(Metadata::of_dir())
    }

    fn copy(&self, _from: &str, _to: &str) -> io::Result<u64> {
        refused()
    }

    fn rename(&self, _from: &str, _to: &str) -> io::Result<()> {
        refused()
    }

    fn remove_file(&self, _path: &str) -> io::Result<()> {
        refused()
    }

    fn create_dir(&self, _path: &str) -> io::Result<()> {
        refused()
    }

    fn remove_dir(&self, _path: &str) -> io::Result<()> {
        refused()
    }

    fn remove_dir_all<B: Allocator>(&self, _alloc: B, _path: &str) -> io::Result<()> {
        refused()
    }
}

#[test]
fn names_are_text_and_each_stands_once(rt: HostRuntime) {
    let alloc = rt.alloc();
    let table: [(&'static [u8], Option<usize>); 6] = [
        (b"", Some(0)),
        (b"b\0a\0", Some(2)),
        (b".\0a\0..\0", Some(1)),
        (b"a\0b\0a\0", None),
        (b"\xff\0", None),
        (b"a\0\xc3\0", None),
    ];
    for (i, (names, count)) in table.iter().enumerate() {
        let system = Given {
            alloc,
            names: *names,
        };
        let counted = match names_in(&system, alloc, "x", &mut OwnFile::new(String::new(alloc))) {
            Ok(items) => Some(items.len()),
            Err(_) => None,
        };
        assert_eq!(rt; counted, *count, "row {i}");
    }
}
