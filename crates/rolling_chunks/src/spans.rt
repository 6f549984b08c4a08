ghost use Rattle.std.specs.Prelude.{◌≡◌, IfOk};
ghost use Rattle.rolling_chunks.specs.Cuts.{longest};
ghost use Rattle.rolling_chunks.specs.Spans.{spans};

use crate::Cutter;
use psb_bytes::Memory;
use std::alloc::Global;

/// A chunk's place in its text, in bytes.
#[derive(Clone, Copy, PartialEq, Eq, Debug)]
pub struct Span {
    pub start: usize,
    pub len: usize,
}

/// The chunks of the text, in order. Joined they are the text; an empty text has none.
pub fn cut_all(alloc: Global, text: &[u8]) -> Result<Vec<Span>, Memory>
    ensures { IfOk result (λ v. v.items ≡ spans longest text.now) }
{
    let mut cutter = Cutter::new(alloc)?;
    let mut spans = Vec::new(alloc);
    let mut start = 0;
    loop {
        let run = cutter.push_to_cut(&text[start..]);
        if !run.ends {
            break;
        }
        spans.push(Span {
            start,
            len: run.len,
        })?;
        start += run.len;
    }
    if let Some(len) = cutter.finish() {
        let len = len as usize;
        spans.push(Span { start, len })?;
    }
    Ok(spans)
}
