//! A line that takes no memory.
ghost use Rattle.std.specs.Prelude.{◌≡◌, ◌≤◌, ◌+◌, ◌++◌, [], length, codes, decimal};
ghost use Rattle.hex.specs.Hex.{encode_lower};

use psb_bytes::Digest;
use std::marker::Model;

/// The most bytes of a line: those of a digest's 64 digits, and a word.
const MOST_BYTES: usize = 73;

/// A line of at most 73 bytes, at the end of a buffer of its own. It is put together from its end.
/// Contracts see it as its bytes.
#[derive(Drop)]
pub(crate) struct ShortLine {
    bytes: [u8; MOST_BYTES],
    start: usize,
}

impl Model for ShortLine {
    ghost use Rattle.std.specs.Prelude.{◌≤◌, ℕ, List, drop};

    ghost Value = { List ℕ };

    ghost view = { λ l. drop l.start l.bytes };

    ghost invariant = { λ l. l.start ≤ 73 };
}

impl ShortLine {
    fn new() -> ShortLine
        ensures { result ≡ [] }
    {
        ShortLine {
            bytes: [0; MOST_BYTES],
            start: MOST_BYTES,
        }
    }

    /// The line of a text.
    pub(crate) fn of(text: &[u8]) -> ShortLine
        requires { length text.now ≤ 73 }
        ensures { result ≡ text.now }
    {
        let mut line = ShortLine::new();
        line.put(text);
        line
    }

    /// The line of a number between two texts.
    pub(crate) fn of_number(front: &[u8], number: u32, back: &[u8]) -> ShortLine
        requires { length front.now + length back.now ≤ 63 }
        ensures { result ≡ front.now ++ decimal number ++ back.now }
    {
        let mut line = ShortLine::new();
        line.put(back);
        line.put_number(number);
        line.put(front);
        line
    }

    /// The line of a digest between two texts, as 64 lower-case hexadecimal digits.
    pub(crate) fn of_digest(front: &[u8], digest: &Digest, back: &[u8]) -> ShortLine
        requires { length front.now + length back.now ≤ 9 }
        ensures { result ≡ front.now ++ encode_lower digest.now ++ back.now }
    {
        let mut digits = [0; 64];
        if hex::encode_to_slice(&digest.0, &mut digits).is_err() {
            unreachable!();
        }
        let mut line = ShortLine::new();
        line.put(back);
        line.put(&digits);
        line.put(front);
        line
    }

    /// The line of the number of a text's fault and its place.
    pub(crate) fn of_fault(fault: u32, place: u32) -> ShortLine
        ensures { result ≡ codes "bad skeleton " ++ decimal fault ++ codes " at " ++ decimal place ++ codes "\n" }
    {
        let mut line = ShortLine::new();
        line.put(b"\n");
        line.put_number(place);
        line.put(b" at ");
        line.put_number(fault);
        line.put(b"bad skeleton ");
        line
    }

    pub(crate) fn as_bytes(&self) -> &[u8]
        ensures { result.now ≡ self.now }
    {
        &self.bytes[self.start..]
    }

    /// Puts a text in front.
    fn put(&mut self, text: &[u8])
        requires { length text.now + length self.old ≤ 73 }
        ensures { self.new ≡ text.now ++ self.old }
    {
        let end = self.start;
        let start = end - text.len();
        self.bytes[start..end].copy_from_slice(text);
        self.start = start;
    }

    /// Puts the decimal digits of a number in front.
    fn put_number(&mut self, number: u32)
        requires { length (decimal number) + length self.old ≤ 73 }
        ensures { self.new ≡ decimal number ++ self.old }
    {
        self.put(&[b'0' + (number % 10) as u8]);
        if number >= 10 {
            self.put_number(number / 10);
        }
    }
}
