//! The place in which a core sees its replies whole.
ghost use Rattle.std.specs.Prelude.{◌≡◌};
ghost use Rattle.em_log.specs.declared.ask.Answer.{Answer as TheAnswer};
ghost use Rattle.em_replies.specs.Answers.{whole_answer, whole_receive};
ghost use Rattle.em_replies.specs.Places.{IsMinted, IsReceive, IsRefused};

use crate::brief::{BriefAnswer, BriefReceive, BriefReply};
use em_log::{Answer, Context, EoId, Event, Fault, QueueId, Reply};
use std::marker::Model;

/// Which of the replies was put last.
#[derive(Clone, Copy, Debug, PartialEq, Eq)]
pub enum Place {
    Receive,
    Minted,
    Refused,
    Done,
    Nothing,
    Idle,
    Other,
}

/// The reply that was put last. One reply of each frequent kind stands ready, since a reply has room for 31 further events,
/// and to make one anew costs as much as all else that an ask does. Contracts see the reply that was put last.
#[derive(Drop)]
pub struct Replies {
    receive: Reply,
    minted: Reply,
    refused: Reply,
    done: Reply,
    nothing: Reply,
    idle: Reply,
    other: Reply,
    last: Place,
}

impl Model for Replies {
    ghost use Rattle.em_log.specs.declared.ask.Reply.{Reply};
    ghost use Rattle.em_replies.specs.Places.{AreReady, shown};

    ghost Value = { Reply };

    ghost view = { shown };

    ghost invariant = { AreReady };
}

/// Makes the reply tell this receive.
fn put_receive(reply: &mut Reply, receive: BriefReceive, owed: bool)
    requires { IsReceive reply.old.answer }
    ensures { reply.new ≡ record { answer = whole_receive receive; owed = owed } }
{
    if let Answer::Context(Context::Receive(told)) = &mut reply.answer {
        told.queue = receive.queue;
        told.eo = receive.eo;
        told.event = receive.event;
        told.stamp = receive.stamp;
        told.ticket = receive.ticket;
        told.cells = receive.cells;
    }
    reply.owed = owed;
}

/// Makes the reply tell that this event was minted.
fn put_minted(reply: &mut Reply, event: Event, owed: bool)
    requires { IsMinted reply.old.answer }
    ensures { reply.new ≡ record { answer = TheAnswer.Minted event; owed = owed } }
{
    if let Answer::Minted(told) = &mut reply.answer {
        *told = event;
    }
    reply.owed = owed;
}

/// Makes the reply tell this refusal.
fn put_refused(reply: &mut Reply, fault: Fault, owed: bool)
    requires { IsRefused reply.old.answer }
    ensures { reply.new ≡ record { answer = TheAnswer.Refused fault; owed = owed } }
{
    if let Answer::Refused(told) = &mut reply.answer {
        *told = fault;
    }
    reply.owed = owed;
}

/// Makes the reply anew.
#[inline(never)]
fn put_anew(reply: &mut Reply, brief: BriefReply)
    ensures { reply.new ≡ brief }
{
    *reply = brief.into_reply();
}

/// A reply with this answer, after which no step is owed.
fn ready(answer: BriefAnswer) -> Reply
    ensures { result.answer ≡ whole_answer answer }
{
    BriefReply::new(answer, false).into_reply()
}

impl Replies {
    /// A place in which no reply was put yet.
    pub fn new() -> Replies {
        let receive = BriefReceive {
            queue: QueueId(0),
            eo: EoId(0),
            event: Event::default(),
            stamp: None,
            ticket: None,
            cells: None,
        };
        Replies {
            receive: ready(BriefAnswer::Receive(receive)),
            minted: ready(BriefAnswer::Minted(Event::default())),
            refused: ready(BriefAnswer::Refused(Fault::NeverMinted(0))),
            done: ready(BriefAnswer::Done),
            nothing: ready(BriefAnswer::Nothing),
            idle: ready(BriefAnswer::Idle),
            other: ready(BriefAnswer::Boot),
            last: Place::Other,
        }
    }

    /// Puts the reply in its place.
    pub fn put(&mut self, brief: BriefReply)
        ensures { self.new ≡ brief }
    {
        let BriefReply { answer, owed } = brief;
        match answer {
            BriefAnswer::Receive(receive) => {
                put_receive(&mut self.receive, receive, owed);
                self.last = Place::Receive;
            }
            BriefAnswer::Minted(event) => {
                put_minted(&mut self.minted, event, owed);
                self.last = Place::Minted;
            }
            BriefAnswer::Refused(fault) => {
                put_refused(&mut self.refused, fault, owed);
                self.last = Place::Refused;
            }
            BriefAnswer::Done => {
                self.done.owed = owed;
                self.last = Place::Done;
            }
            BriefAnswer::Nothing => {
                self.nothing.owed = owed;
                self.last = Place::Nothing;
            }
            BriefAnswer::Idle => {
                self.idle.owed = owed;
                self.last = Place::Idle;
            }
            other => {
                put_anew(&mut self.other, BriefReply::new(other, owed));
                self.last = Place::Other;
            }
        }
    }

    /// The reply that was put last.
    pub fn last(&self) -> &Reply
        ensures { result.now ≡ self.now }
    {
        match self.last {
            Place::Receive => &self.receive,
            Place::Minted => &self.minted,
            Place::Refused => &self.refused,
            Place::Done => &self.done,
            Place::Nothing => &self.nothing,
            Place::Idle => &self.idle,
            Place::Other => &self.other,
        }
    }
}
