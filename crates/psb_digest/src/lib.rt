//! SHA-256, HMAC, the words of ChaCha20, and the claims that are made of them.
#![tactic(auto)]

mod claims;
mod clashes;
mod hashes;
mod stream;

pub use claims::claim_of;
pub use clashes::Clash;
pub use hashes::{hmac, sha, sha_two};
pub use stream::{Words, mask, own_words};

#[cfg(test)]
mod tests;
