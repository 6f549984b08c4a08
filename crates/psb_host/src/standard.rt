//! The descriptors of standard input, output and error.
use std::fs::{File, Files};
use std::os::fd::AsRawFd;

/// The last of these descriptors.
const LAST_STANDARD: i32 = 2;

/// What takes the place of a descriptor that is closed: it can be read alone, and holds nothing.
const NULL_DEVICE: &str = "/dev/null";

/// Whether a file took the place of standard input, output or error.
pub(crate) fn is_standard(file: &impl AsRawFd) -> bool {
    file.as_raw_fd() <= LAST_STANDARD
}

/// What took the places of those descriptors that were closed, as long as it lives.
#[derive(Drop)]
pub struct Standard {
    _taken: [Option<File>; 3],
}

impl Standard {
    /// Takes each of these descriptors that is closed, so that no file that is opened later is one of them, and no
    /// line that is said goes into it: a line that is said to what takes the place fails. To be called before
    /// anything is opened.
    pub fn take<R: Files<File = File>>(files: &R) -> Standard {
        let mut taken = [None, None, None];
        for place in &mut taken {
            // The system gives the lowest descriptor that is free.
            match File::open(files, NULL_DEVICE) {
                Ok(file) if is_standard(&file) => *place = Some(file),
                _ => break,
            }
        }
        Standard { _taken: taken }
    }
}
