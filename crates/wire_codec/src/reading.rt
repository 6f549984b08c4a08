ghost use Rattle.std.specs.Prelude.{◌≡◌, ◌≤◌, ◌+◌, length, MatchResult, IfOk, IsTrue, Ok, Err};
ghost use Rattle.wire_codec.specs.declared.limits.TheConstants.{HEADER_BYTES, TAG_BYTES};
ghost use Rattle.wire_codec.specs.Frames.{read_frame, read_tagged, has_magic, fits};
ghost use Rattle.wire_codec.specs.Views.{incoming_of, frame_of};

use crate::bodies::body_of_kind;
use crate::cells::{u32_in, u64_in};
use crate::frame::Dropped;
use crate::keys::Keys;
use crate::limits::{HEADER_BYTES, LAST_KIND, MAGIC, TAG_BYTES};
use crate::view::FrameView;
use psb_bytes::PeerId;
use psb_digest::hmac;

// Where the fields of a header begin, behind the magic.
const KIND_AT: usize = 4;

const SENDER_AT: usize = 8;

const RECEIVER_AT: usize = 12;

const NUMBER_AT: usize = 16;

const LENGTH_AT: usize = 24;

/// Whether the magic and the padding stand where they must.
fn is_magic(bytes: &[u8]) -> bool
    requires { HEADER_BYTES ≤ length bytes.now }
    ensures { result ≡ has_magic bytes.now }
{
    &bytes[0..4] == MAGIC.as_slice() && &bytes[5..8] == [0, 0, 0].as_slice()
}

/// The frame of a datagram whose tag is right.
#[tactic(auto, unfolding(crate::specs::Frames::read_tagged))]
fn tagged(bytes: &[u8]) -> Result<FrameView<'_>, Dropped>
    requires { HEADER_BYTES + TAG_BYTES ≤ length bytes.now }
    ensures exact { MatchResult result (λ v. read_tagged bytes.now ≡ Ok (incoming_of v)) (λ d. read_tagged bytes.now ≡ Err d) }
    ensures fits { IfOk result (λ v. IsTrue (fits (frame_of v.body))) }
{
    let (signed, _) = bytes.split_at(bytes.len() - TAG_BYTES);
    let (_, body) = signed.split_at(HEADER_BYTES);
    if u32_in(bytes, LENGTH_AT) as usize != body.len() {
        return Err(Dropped::BadBody);
    }
    match body_of_kind(bytes[KIND_AT], body) {
        Some(body) => Ok(FrameView {
            from: PeerId(u32_in(bytes, SENDER_AT)),
            number: u64_in(bytes, NUMBER_AT),
            body,
        }),
        None => Err(Dropped::BadBody),
    }
}

/// The frame that a datagram holds for the node `own`, or the first test that it fails. It takes no
/// memory, and lends parts of the datagram. The tag is computed once, behind the tests of the header,
/// and the body is taken apart only where the tag is right.
#[tactic(auto, unfolding(crate::specs::Frames::read_frame, crate::specs::Frames::read_keyed))]
pub fn decode<'a>(bytes: &'a [u8], own: PeerId, keys: &Keys) -> Result<FrameView<'a>, Dropped>
    ensures exact { MatchResult result (λ v. read_frame own keys.now bytes.now ≡ Ok (incoming_of v)) (λ d. read_frame own keys.now bytes.now ≡ Err d) }
    ensures fits { IfOk result (λ v. IsTrue (fits (frame_of v.body))) }
{
    if bytes.len() < HEADER_BYTES + TAG_BYTES {
        return Err(Dropped::Short);
    }
    if !is_magic(bytes) {
        return Err(Dropped::BadMagic);
    }
    if bytes[KIND_AT] < 1 || bytes[KIND_AT] > LAST_KIND {
        return Err(Dropped::BadKind);
    }
    if u32_in(bytes, RECEIVER_AT) != own.0 {
        return Err(Dropped::NotForMe);
    }
    let Some(key) = keys.key_of(PeerId(u32_in(bytes, SENDER_AT))) else {
        return Err(Dropped::Stranger);
    };
    let (signed, tag) = bytes.split_at(bytes.len() - TAG_BYTES);
    if tag != hmac(&key.0, signed).0.as_slice() {
        return Err(Dropped::BadTag);
    }
    tagged(bytes)
}
