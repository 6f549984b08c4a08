//! Fields, written behind what stands there. Numbers are written high byte first.
ghost use Rattle.std.specs.Prelude.{◌≡◌, ◌++◌, ◌∷◌, [], OnOk};
ghost use Rattle.psb_bytes.specs.Numbers.{u32_bytes, u64_bytes};

use psb_bytes::{Memory, PeerId};

pub(crate) fn put_bytes(out: &mut Vec<u8>, bytes: &[u8]) -> Result<(), Memory>
    ensures { OnOk result (out.new.items ≡ out.old.items ++ bytes.now) }
{
    out.extend_from_slice(bytes)?;
    Ok(())
}

pub(crate) fn put_u8(out: &mut Vec<u8>, n: u8) -> Result<(), Memory>
    ensures { OnOk result (out.new.items ≡ out.old.items ++ n ∷ []) }
{
    out.push(n)?;
    Ok(())
}

pub(crate) fn put_u32(out: &mut Vec<u8>, n: u32) -> Result<(), Memory>
    ensures { OnOk result (out.new.items ≡ out.old.items ++ u32_bytes n) }
{
    put_bytes(out, &n.to_be_bytes())
}

pub(crate) fn put_u64(out: &mut Vec<u8>, n: u64) -> Result<(), Memory>
    ensures { OnOk result (out.new.items ≡ out.old.items ++ u64_bytes n) }
{
    put_bytes(out, &n.to_be_bytes())
}

pub(crate) fn put_peer(out: &mut Vec<u8>, peer: PeerId) -> Result<(), Memory>
    ensures { OnOk result (out.new.items ≡ out.old.items ++ u32_bytes peer) }
{
    put_u32(out, peer.0)
}
