ghost use Rattle.std.specs.Prelude.{◌≡◌, option_map};
ghost use Rattle.wire_codec.specs.Views.{frame_of};
ghost use Rattle.psb_machine.specs.Settling.{replied_by};
ghost use Rattle.deals.specs.Views.{answer_in};

use wire_codec::{BodyView, ClaimsView};

/// What a peer answers to a deal of the node's own. It is lent from the peer's frame.
#[derive(Drop)]
pub enum AnswerView<'a> {
    /// It took the deal, with these claims.
    Accepts { claims: ClaimsView<'a> },
    /// It refused the deal, for this reason and with this detail.
    Refuses { why: u8, detail: u64 },
}

impl<'a> AnswerView<'a> {
    /// The answer that a frame is, None where it is none.
    pub fn of(body: BodyView<'a>) -> Option<AnswerView<'a>>
        ensures { option_map answer_in result ≡ replied_by (frame_of body.entry) }
    {
        match body {
            BodyView::Accepted { claims } => Some(AnswerView::Accepts { claims }),
            BodyView::Refused { why, detail } => Some(AnswerView::Refuses { why, detail }),
            _ => None,
        }
    }
}

/// An answer with the number of the deal that it answers.
#[derive(Drop)]
pub struct ReplyView<'a> {
    pub number: u64,
    pub answer: AnswerView<'a>,
}
