//! The graph of a script: its declarations with their names, and its bodies.
ghost use Rattle.std.specs.Prelude.{◌≡◌, ◌<◌, ◌≤◌, ◌↔◌, length, IsSome, IfSome};

use crate::body::Block;
use crate::ids::{EoId, GroupId, Kind};
use crate::list::List;
use crate::mask::CoreMask;
use arrayvec::ArrayString;
use std::marker::Model;

/// A name of at most 16 bytes.
#[derive(Debug, Drop)]
pub struct Name {
    text: ArrayString<16>,
}

impl Model for Name {
    ghost use Rattle.std.specs.Prelude.{List, ℕ};

    ghost Value = { List ℕ };

    ghost view = { λ n. n.text.bytes };
}

impl Name {
    pub fn new(text: &str) -> Option<Name>
        ensures fits { IsSome result ↔ (length text.now ≤ 16) }
        ensures value { IfSome result (λ n. n ≡ text.now) }
    {
        let mut name = ArrayString::new();
        match name.try_push_str(text) {
            Ok(()) => Some(Name { text: name }),
            Err(_) => None,
        }
    }

    pub fn as_str(&self) -> &str
        ensures { result.now ≡ self.now }
    {
        self.text.as_str()
    }
}

#[derive(Clone, Copy, Debug, PartialEq, Eq)]
pub enum Priority {
    Lowest,
    Low,
    Normal,
    High,
    Highest,
}

#[derive(Debug, Drop)]
pub struct PoolDecl {
    pub name: Name,
    pub events: u16,
    pub words: u8,
}

#[derive(Debug, Drop)]
pub struct GroupDecl {
    pub name: Name,
    pub mask: CoreMask,
}

#[derive(Clone, Copy, Debug, PartialEq, Eq)]
pub struct Given {
    pub receive: bool,
    pub start: bool,
    pub stop: bool,
    pub lstart: bool,
    pub lstop: bool,
}

#[derive(Debug, Drop)]
pub struct EoDecl {
    pub name: Name,
    pub running: bool,
    pub receive: Block,
    pub start: Block,
    pub stop: Block,
    pub lstart: Block,
    pub lstop: Block,
    pub error: Option<Block>,
    pub given: Given,
}

#[derive(Debug, Drop)]
pub struct AgroupDecl {
    pub name: Name,
    pub group: GroupId,
}

#[derive(Debug, Drop)]
pub struct QueueDecl {
    pub name: Name,
    pub kind: Kind,
    pub eo: Option<EoId>,
    pub priority: Option<Priority>,
    pub group: Option<GroupId>,
    pub agroup: Option<u8>,
}

#[derive(Clone, Copy, Debug, PartialEq, Eq)]
pub enum Decl {
    Pool(u8),
    Group(u8),
    Eo(u8),
    Agroup(u8),
    Queue(u16),
    Egroup(u8),
}

#[derive(Debug, Drop)]
pub struct Config {
    pub cores: u8,
    pub order: List<Decl>,
    pub pools: List<PoolDecl>,
    pub groups: List<GroupDecl>,
    pub eos: List<EoDecl>,
    pub agroups: List<AgroupDecl>,
    pub queues: List<QueueDecl>,
    pub egroups: List<Name>,
    pub boot: Block,
    pub error: Option<Block>,
}
