//! A text read field by field.
ghost use Rattle.std.specs.Prelude.{◌≡◌, ◌≤◌, length, IfOk};
ghost use Rattle.skeleton.specs.Reading.{bytes_at, u8_at, u16_at, u32_at, u64_at, kind_at, path_len_at, path_at, ref_len_at, ref_at};
ghost use Rattle.skeleton.specs.Answers.{Reads};
ghost use Rattle.skeleton.specs.declared.limits.TheConstants.{MOST_TEXT_BYTES};

use crate::entry::EntryKind;
use crate::faults::{FaultAt, SkelFault};
use crate::limits::{FILE_KIND, FOLDER_KIND, MOST_CHUNK_BYTES, MOST_PATH_BYTES, MOST_TEXT_BYTES};
use crate::paths::valid_path;
use crate::tree::Skeleton;
use psb_bytes::{Cursor, Digest, Ref, Short};
use std::marker::Model;

/// A text of at most the most bytes, from some place on. Contracts see it as what is not read yet.
///
/// Each `take` answers the field that begins here and moves behind it, or refuses it.
#[derive(Drop)]
pub(crate) struct Reader<'a> {
    place: u32,
    fields: Cursor<'a>,
}

impl<'a> Model for Reader<'a> {
    ghost use Rattle.std.specs.Prelude.{◌≤◌, ◌+◌, length};
    ghost use Rattle.skeleton.specs.Reading.{Unread};
    ghost use Rattle.skeleton.specs.declared.limits.TheConstants.{MOST_TEXT_BYTES};

    ghost Value = { Unread };

    ghost view = { λ r. record { place = r.place; bytes = r.fields } };

    ghost invariant = { λ r. r.place + length r.fields ≤ MOST_TEXT_BYTES };
}

impl<'a> Reader<'a> {
    pub(crate) fn new(text: &'a [u8]) -> Reader<'a>
        requires { length text.now ≤ MOST_TEXT_BYTES }
        ensures { result ≡ record { place = 0; bytes = text.now } }
    {
        Reader {
            place: 0,
            fields: Cursor::new(text),
        }
    }

    /// Where the next field begins.
    pub(crate) fn place(&self) -> u32
        ensures { result ≡ self.now.place }
    {
        self.place
    }

    /// How many bytes are left.
    pub(crate) fn left(&self) -> usize
        ensures { result ≡ length self.now.bytes }
    {
        self.fields.left()
    }

    /// The next `n` bytes, lent from the text.
    #[tactic(auto, unfolding(crate::specs::Reading::bytes_at))]
    pub(crate) fn take(&mut self, n: usize) -> Result<&'a [u8], FaultAt>
        ensures exact { Reads (λ s. s.now) result self.new (bytes_at n self.old) }
        ensures len { IfOk result (λ s. length s.now ≡ n) }
    {
        match self.fields.take_slice(n) {
            Ok(front) => {
                self.place += n as u32;
                Ok(front)
            }
            Err(Short) => Err(SkelFault::Short.at(self.place)),
        }
    }

    /// The next `N` bytes.
    pub(crate) fn take_array<const N: usize>(&mut self) -> Result<[u8; N], FaultAt>
        ensures { Reads (λ a. a) result self.new (bytes_at N self.old) }
    {
        let mut array = [0; N];
        array.copy_from_slice(self.take(N)?);
        Ok(array)
    }

    #[tactic(auto, unfolding(crate::specs::Reading::u8_at, crate::specs::Reading::bytes_at))]
    pub(crate) fn take_u8(&mut self) -> Result<u8, FaultAt>
        ensures { Reads (λ n. n) result self.new (u8_at self.old) }
    {
        match self.fields.take_u8() {
            Ok(number) => {
                self.place += 1;
                Ok(number)
            }
            Err(Short) => Err(SkelFault::Short.at(self.place)),
        }
    }

    #[tactic(auto, unfolding(crate::specs::Reading::u16_at, crate::specs::Reading::bytes_at))]
    pub(crate) fn take_u16(&mut self) -> Result<u16, FaultAt>
        ensures { Reads (λ n. n) result self.new (u16_at self.old) }
    {
        match self.fields.take_u16() {
            Ok(number) => {
                self.place += 2;
                Ok(number)
            }
            Err(Short) => Err(SkelFault::Short.at(self.place)),
        }
    }

    #[tactic(auto, unfolding(crate::specs::Reading::u32_at, crate::specs::Reading::bytes_at))]
    pub(crate) fn take_u32(&mut self) -> Result<u32, FaultAt>
        ensures { Reads (λ n. n) result self.new (u32_at self.old) }
    {
        match self.fields.take_u32() {
            Ok(number) => {
                self.place += 4;
                Ok(number)
            }
            Err(Short) => Err(SkelFault::Short.at(self.place)),
        }
    }

    #[tactic(auto, unfolding(crate::specs::Reading::u64_at, crate::specs::Reading::bytes_at))]
    pub(crate) fn take_u64(&mut self) -> Result<u64, FaultAt>
        ensures { Reads (λ n. n) result self.new (u64_at self.old) }
    {
        match self.fields.take_u64() {
            Ok(number) => {
                self.place += 8;
                Ok(number)
            }
            Err(Short) => Err(SkelFault::Short.at(self.place)),
        }
    }

    #[tactic(auto, unfolding(crate::specs::Reading::kind_at))]
    pub(crate) fn take_kind(&mut self) -> Result<EntryKind, FaultAt>
        ensures { Reads (λ k. k) result self.new (kind_at self.old) }
    {
        let place = self.place;
        match self.take_u8()? {
            FOLDER_KIND => Ok(EntryKind::Folder),
            FILE_KIND => Ok(EntryKind::File),
            _ => Err(SkelFault::BadCount.at(place)),
        }
    }

    #[tactic(auto, unfolding(crate::specs::Reading::path_len_at))]
    fn take_path_len(&mut self) -> Result<u16, FaultAt>
        ensures { Reads (λ n. n) result self.new (path_len_at self.old) }
    {
        let place = self.place;
        let len = self.take_u16()?;
        if 1 <= len && len <= MOST_PATH_BYTES {
            Ok(len)
        } else {
            Err(SkelFault::BadPath.at(place))
        }
    }

    /// A path that may stand behind the entries of a skeleton.
    #[tactic(auto, unfolding(crate::specs::Reading::path_at))]
    pub(crate) fn take_path(&mut self, before: &Skeleton) -> Result<&'a str, FaultAt>
        ensures { Reads (λ s. s.now) result self.new (path_at before.now self.old) }
    {
        let len = self.take_path_len()?;
        let place = self.place;
        let bytes = self.take(usize::from(len))?;
        let Some(path) = valid_path(bytes) else {
            return Err(SkelFault::BadPath.at(place));
        };
        if !before.is_next(path) {
            return Err(SkelFault::BadOrder.at(place));
        }
        Ok(path)
    }

    #[tactic(auto, unfolding(crate::specs::Reading::ref_len_at))]
    fn take_ref_len(&mut self) -> Result<u32, FaultAt>
        ensures { Reads (λ n. n) result self.new (ref_len_at self.old) }
    {
        let place = self.place;
        let len = self.take_u32()?;
        if 1 <= len && len <= MOST_CHUNK_BYTES {
            Ok(len)
        } else {
            Err(SkelFault::BadCount.at(place))
        }
    }

    #[tactic(auto, unfolding(crate::specs::Reading::ref_at))]
    pub(crate) fn take_ref(&mut self) -> Result<Ref, FaultAt>
        ensures { Reads (λ r. r) result self.new (ref_at self.old) }
    {
        let name = Digest(self.take_array()?);
        let handle = Digest(self.take_array()?);
        let len = self.take_ref_len()?;
        Ok(Ref { name, handle, len })
    }
}
