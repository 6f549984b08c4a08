//! Tests of `change_codec`. They need its contracts alone, and stand in a crate of their own so that it is proved once.
#![tactic(auto)]

#[cfg(test)]
mod codec;
