ghost use Rattle.std.specs.Prelude.{◌≡◌, ◌≤◌, ◌<◌, ◌+◌, ◌*◌, ◌^◌, vec_len, true};

use crate::place::Place;
use crate::read::{read_part, scan};
use crate::write::{begin, fill_piece, first_piece, put_record};
use crate::{Log, LogError, MAGIC};
use psb_bytes::Memory;
use psb_station::Disk;
use std::alloc::Global;

/// A log whose records stand one behind the other, each behind a gate of its own. The image begins
/// with `PSBLOG01` and eight zero bytes. A record is a gate byte, the lengths of its head and its
/// body as numbers of 4 bytes with the greatest first, head and body. A gate byte other than 0 is
/// open, and the log ends at the first gate byte 0.
#[derive(Drop)]
pub struct PlainLog {
    places: Vec<Place>,
    /// The place of the closed gate.
    end: u64,
    broken: bool,
    /// The room for the next record.
    buffer: Vec<u8>,
    ghost small: { end < 2 ^ 62 },
    ghost counted: { 16 + 9 * vec_len places ≤ end },
}

impl Log for PlainLog {
    ghost use Rattle.node_journal.specs.Format.{Stands};
    ghost use Rattle.node_journal.specs.Plain.{Holds, HasRoom};
    ghost use Rattle.node_journal.specs.Laws.{holds_count, holds_there, same_stands, few_records, shorter_room};

    ghost stands = { Stands };

    ghost holds = { Holds };

    ghost size = { λ log. vec_len log.places };

    ghost keeps_body = { λ log n. true };

    ghost is_broken = { λ log. log.broken };

    ghost has_room = { HasRoom };

    ghost holds_stands = { λ log es c holds. holds.stands };

    ghost holds_size = { λ log es c holds. holds_count log es c holds };

    ghost holds_bodies = { λ log es c n holds. holds_there log es c n holds };

    ghost stands_one = { same_stands };

    ghost size_small = { few_records };

    ghost room_shorter = { shorter_room };

    fn create<D: Disk>(
        alloc: Global,
        disk: &mut D,
        head: &[u8],
        body: &[u8],
    ) -> Result<Self, LogError> {
        let mut piece = Vec::new(alloc);
        first_piece(&mut piece, head, body)?;
        let mut places = Vec::new(alloc);
        places.push(Place {
            at: 16,
            head: head.len() as u32,
            body: body.len() as u32,
        })?;
        begin(disk, &piece)?;
        Ok(PlainLog {
            places,
            end: 25 + head.len() as u64 + body.len() as u64,
            broken: false,
            buffer: Vec::new(alloc),
        })
    }

    fn open<D: Disk>(alloc: Global, disk: &mut D) -> Result<Self, LogError> {
        disk.sync()?;
        let len = disk.len()?;
        let mut start = [0u8; 16];
        let count = disk.read(0, &mut start)?;
        if count < 16 || start != MAGIC {
            return Err(LogError::NotLog);
        }
        let (places, end) = scan(alloc, disk, len)?;
        Ok(PlainLog {
            places,
            end,
            broken: false,
            buffer: Vec::new(alloc),
        })
    }

    fn make_room(&mut self, head: usize, body: usize) -> Result<(), Memory> {
        self.buffer.clear();
        if self.places.reserve(1).is_err() || self.buffer.reserve(9 + head + body).is_err() {
            return Err(Memory);
        }
        Ok(())
    }

    fn append<D: Disk>(&mut self, disk: &mut D, head: &[u8], body: &[u8]) -> Result<u64, LogError> {
        if self.broken {
            return Err(LogError::Broken);
        }
        fill_piece(&mut self.buffer, head, body);
        if put_record(disk, self.end, &self.buffer).is_err() {
            self.broken = true;
            return Err(LogError::DiskFault);
        }
        let number = self.places.len() as u64;
        let _ = self.places.push(Place {
            at: self.end,
            head: head.len() as u32,
            body: body.len() as u32,
        });
        self.end += 9 + head.len() as u64 + body.len() as u64;
        Ok(number)
    }

    fn head<D: Disk>(
        &mut self,
        disk: &mut D,
        number: u64,
        into: &mut Vec<u8>,
    ) -> Result<(), LogError> {
        if self.broken {
            return Err(LogError::Broken);
        }
        let place = &self.places[number as usize];
        read_part(disk, place.at.saturating_add(9), place.head, into)
    }

    fn body<D: Disk>(
        &mut self,
        disk: &mut D,
        number: u64,
        into: &mut Vec<u8>,
    ) -> Result<(), LogError> {
        if self.broken {
            return Err(LogError::Broken);
        }
        let place = &self.places[number as usize];
        let at = place.at.saturating_add(9 + u64::from(place.head));
        read_part(disk, at, place.body, into)
    }

    fn has_body(&self, _number: u64) -> bool {
        true
    }

    fn broken(&self) -> bool {
        self.broken
    }

    fn count(&self) -> u64 {
        self.places.len() as u64
    }
}

#[cfg(test)]
mod tests;
