//! A reply of the desk without the room for further events, which it does not give yet.
ghost use Rattle.std.specs.Prelude.{◌≡◌, []};
ghost use Rattle.em_replies.specs.Answers.{whole_answer};

use em_log::{
    Answer, Cells, Context, EoId, Event, Fault, OpId, QueueId, Receive, Reply, Rest, Stamp,
};
use std::marker::Model;

/// A receive with no further events.
#[derive(Debug, Drop)]
pub struct BriefReceive {
    pub queue: QueueId,
    pub eo: EoId,
    pub event: Event,
    pub stamp: Option<Stamp>,
    pub ticket: Option<u32>,
    pub cells: Option<Cells>,
}

/// An answer whose receive, if it is one, has no further events.
#[derive(Debug, Drop)]
pub enum BriefAnswer {
    Boot,
    Receive(BriefReceive),
    GlobalStart(OpId, EoId),
    LocalStart(OpId, EoId),
    LocalStop(OpId, EoId),
    GlobalStop(OpId, EoId),
    Acked(OpId),
    Idle,
    Quiet,
    Limit,
    Halted,
    Minted(Event),
    Nothing,
    Done,
    Refused(Fault),
}

/// A reply whose receive, if it is one, has no further events. Contracts see the `Reply` that it stands for.
#[derive(Drop)]
pub struct BriefReply {
    pub(crate) answer: BriefAnswer,
    pub(crate) owed: bool,
}

impl Model for BriefReply {
    ghost use Rattle.em_log.specs.declared.ask.Reply.{Reply};
    ghost use Rattle.em_replies.specs.Answers.{whole_answer};

    ghost Value = { Reply };

    ghost view = { λ r. record { answer = whole_answer r.answer; owed = r.owed } };
}

/// The whole form of a receive.
fn whole_receive_of(receive: BriefReceive) -> Receive
    ensures { result ≡ record { queue = receive.queue; eo = receive.eo; event = receive.event; stamp = receive.stamp; ticket = receive.ticket; cells = receive.cells; rest = [] } }
{
    let BriefReceive {
        queue,
        eo,
        event,
        stamp,
        ticket,
        cells,
    } = receive;
    Receive {
        queue,
        eo,
        event,
        stamp,
        ticket,
        cells,
        rest: Rest::new(),
    }
}

/// The whole form of an answer.
fn whole_answer_of(answer: BriefAnswer) -> Answer
    ensures { result ≡ whole_answer answer }
{
    match answer {
        BriefAnswer::Boot => Answer::Context(Context::Boot),
        BriefAnswer::Receive(receive) => Answer::Context(Context::Receive(whole_receive_of(
            receive,
        ))),
        BriefAnswer::GlobalStart(op, eo) => Answer::Context(Context::GlobalStart(op, eo)),
        BriefAnswer::LocalStart(op, eo) => Answer::Context(Context::LocalStart(op, eo)),
        BriefAnswer::LocalStop(op, eo) => Answer::Context(Context::LocalStop(op, eo)),
        BriefAnswer::GlobalStop(op, eo) => Answer::Context(Context::GlobalStop(op, eo)),
        BriefAnswer::Acked(op) => Answer::Acked(op),
        BriefAnswer::Idle => Answer::Idle,
        BriefAnswer::Quiet => Answer::Quiet,
        BriefAnswer::Limit => Answer::Limit,
        BriefAnswer::Halted => Answer::Halted,
        BriefAnswer::Minted(event) => Answer::Minted(event),
        BriefAnswer::Nothing => Answer::Nothing,
        BriefAnswer::Done => Answer::Done,
        BriefAnswer::Refused(fault) => Answer::Refused(fault),
    }
}

impl BriefReply {
    /// The reply with this answer, and whether the core owes a step.
    pub fn new(answer: BriefAnswer, owed: bool) -> BriefReply
        ensures { result ≡ record { answer = whole_answer answer; owed = owed } }
    {
        BriefReply { answer, owed }
    }

    /// The same reply in its whole form.
    #[inline(never)]
    pub fn into_reply(self) -> Reply
        ensures { result ≡ self }
    {
        let BriefReply { answer, owed } = self;
        Reply {
            answer: whole_answer_of(answer),
            owed,
        }
    }
}
