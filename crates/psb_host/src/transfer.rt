//! Reads and writes that are made of several.
ghost use Rattle.std.specs.Prelude.{◌≡◌, ◌≤◌, length, take, IfOk, OnOk};
ghost use Rattle.std.specs.Io.KnownBytes.{Appends, Consumes};
ghost use Rattle.psb_host.specs.Transfers.{Fills, WentTo};

use std::io;
use std::io::{ErrorKind, Read, Seek, SeekFrom, Write};

/// Reads until the buffer is full or the end comes, and answers how many bytes came.
fn fill<F: Read>(file: &mut F, into: &mut [u8]) -> io::Result<usize>
    ensures within { IfOk result (λ n. n ≤ length into.new) }
    ensures bytes { IfOk result (λ n. Fills (F.remaining file.old) n into.new) }
{
    let mut filled = 0;
    while filled < into.len() {
        let count = file.read(&mut into[filled..])?;
        if count == 0 {
            break;
        }
        filled += count;
    }
    Ok(filled)
}

/// Reads from a place on until the buffer is full or the end comes, and answers how many bytes came.
pub(crate) fn read_at<F: Read + Seek>(file: &mut F, at: u64, into: &mut [u8]) -> io::Result<usize>
    ensures within { IfOk result (λ n. n ≤ length into.new) }
    ensures bytes { IfOk result (λ n. (there : F) × WentTo (F.stream_position file.old) (F.stream_position there) at × Fills (F.remaining there) n into.new) }
{
    file.seek(SeekFrom::Start(at))?;
    fill(file, into)
}

/// Reads once from a place on: some bytes that stand there, and none at the end alone.
pub(crate) fn read_once<F: Read + Seek>(file: &mut F, at: u64, into: &mut [u8]) -> io::Result<usize>
    ensures within { IfOk result (λ n. n ≤ length into.new) }
    ensures bytes { IfOk result (λ n. (there : F) × WentTo (F.stream_position file.old) (F.stream_position there) at × Consumes (F.remaining there) (F.remaining file.new) (take n into.new)) }
{
    file.seek(SeekFrom::Start(at))?;
    file.read(into)
}

/// Writes all bytes, and counts those that went down, also where it fails.
pub(crate) fn write_counted<F: Write>(file: &mut F, from: &[u8], down: &mut u64) -> io::Result<()>
    ensures within { down.new ≤ length from.now }
    ensures whole { OnOk result (down.new ≡ length from.now) }
    ensures bytes { Appends (F.contents file.old) (F.contents file.new) (take down.new from.now) }
{
    let mut done = 0;
    *down = 0;
    while done < from.len() {
        let count = file.write(&from[done..])?;
        if count == 0 {
            return Err(io::Error::from(ErrorKind::WriteZero));
        }
        done += count;
        *down = done as u64;
    }
    Ok(())
}

/// Writes all bytes from a place on, and counts those that went down, also where it fails.
pub(crate) fn write_at<F: Write + Seek>(
    file: &mut F,
    at: u64,
    from: &[u8],
    down: &mut u64,
) -> io::Result<()>
    ensures within { down.new ≤ length from.now }
    ensures whole { OnOk result (down.new ≡ length from.now) }
    ensures bytes { OnOk result ((there : F) × WentTo (F.stream_position file.old) (F.stream_position there) at × Appends (F.contents there) (F.contents file.new) (take down.new from.now)) }
{
    *down = 0;
    file.seek(SeekFrom::Start(at))?;
    write_counted(file, from, down)
}

/// Writes all bytes, and leaves none of them in a buffer.
pub(crate) fn put_out<W: Write>(output: &mut W, bytes: &[u8]) -> io::Result<()>
    ensures { OnOk result (Appends (W.contents output.old) (W.contents output.new) bytes.now) }
{
    output.write_all(bytes)?;
    output.flush()
}
