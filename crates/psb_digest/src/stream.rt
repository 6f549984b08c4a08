ghost use Rattle.std.specs.Prelude.{◌≡◌, ℕ, ◌+◌, ◌%◌, ◌^◌, ◌<◌, ◌≤◌, length, slice_index, bit_xor};
ghost use Rattle.std.specs.Int.{w32, to_le_bytes};
ghost use Rattle.psb_digest.specs.Words.{word, words_key, masked};

use crate::sha_two;
use psb_bytes::Digest;
use rand_chacha::ChaCha20Rng;
use rand_core::SeedableRng;
use rand_core::utils::NextWord;
use std::marker::Model;

/// The words of ChaCha20 (RFC 8439's block function, with the stream as a 64-bit nonce), read in
/// turn from place 0. They repeat after 2^68 words.
#[derive(Drop)]
pub struct Words {
    key: Digest,
    generator: ChaCha20Rng,
}

impl Model for Words {
    ghost use Rattle.std.specs.Prelude.{◌≡◌};
    ghost use Rattle.rand_chacha.specs.ChaCha.{key_of};
    ghost use Rattle.psb_digest.specs.Words.{Reader};

    ghost Value = { Reader };

    ghost view = { λ w. record { key = w.key; stream = w.generator.stream; place = w.generator.word_pos } };

    ghost invariant = { λ w. w.generator.key ≡ key_of w.key };
}

impl Words {
    pub fn new(key: &Digest, stream: u64) -> Words
        ensures { result ≡ record { key = key.now; stream = stream; place = 0 } }
    {
        let mut generator = ChaCha20Rng::from_seed(key.0);
        generator.set_stream(stream);
        Words {
            key: *key,
            generator,
        }
    }

    /// The word at this place.
    pub fn next(&mut self) -> u32
        ensures value { result ≡ word self.old.key self.old.stream self.old.place }
        ensures moved { self.new ≡ record self.old { place = (self.old.place + 1) % 2 ^ 68 } }
    {
        self.generator.next_word()
    }
}

/// A node's own words for its change of this number.
pub fn own_words(seed: &Digest, change: u64) -> Words
    ensures { result ≡ record { key = words_key seed.now; stream = change; place = 0 } }
{
    Words::new(&sha_two(b"psb words", &seed.0), change)
}

/// Xors the keystream from place 0 onto the bytes. The words stand in it as four bytes each, low
/// byte first. To mask twice undoes it.
pub fn mask(key: &Digest, stream: u64, bytes: &mut [u8])
    ensures { bytes.new ≡ masked key.now stream bytes.old }
{
    let mut words = Words::new(key, stream);
    let whole = bytes.len() / 4;
    for i in 0..whole {
        xor_word(&mut bytes[4 * i..4 * i + 4], words.next());
    }
    if 4 * whole < bytes.len() {
        xor_word(&mut bytes[4 * whole..], words.next());
    }
}

// Xors the bytes of the word, low byte first, onto at most four bytes.
fn xor_word(bytes: &mut [u8], word: u32)
    requires { length bytes.old ≤ 4 }
    ensures { (k : ℕ) → k < length bytes.old
        → slice_index bytes.new k ≡ bit_xor (slice_index bytes.old k) (slice_index (to_le_bytes w32 word) k) }
{
    let word = word.to_le_bytes();
    for (k, byte) in bytes.iter_mut().enumerate() {
        *byte ^= word[k];
    }
}
