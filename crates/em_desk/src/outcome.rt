//! What an ask comes to.
ghost use Rattle.std.specs.Prelude.{◌≡◌, false};
ghost use Rattle.em_desk.specs.State.{answer_by};

use em_log::{Event, Fault};
use em_replies::{BriefAnswer, BriefReply};

/// What an ask comes to: a small form of its answer.
#[derive(Drop)]
pub enum Outcome {
    Done,
    Nothing,
    Minted(Event),
    Refused(Fault),
}

/// The reply to an ask, after which no step is owed.
pub fn reply(outcome: Outcome) -> BriefReply
    ensures { result ≡ record { answer = answer_by outcome; owed = false } }
{
    let answer = match outcome {
        Outcome::Done => BriefAnswer::Done,
        Outcome::Nothing => BriefAnswer::Nothing,
        Outcome::Minted(event) => BriefAnswer::Minted(event),
        Outcome::Refused(fault) => BriefAnswer::Refused(fault),
    };
    BriefReply::new(answer, false)
}
