//! The names of a script: which may be given, and what each stands for.
ghost use Rattle.std.specs.Prelude.{◌≡◌, [], ◌≤◌, length, map, OnOk, IfOk, Some, None, if◌then◌else◌};
ghost use Rattle.std.specs.FinMap as table;
ghost use Rattle.std.specs.List.{list_all, list_any};
ghost use Rattle.em_log.specs.Names.{begins_well, is_letter, is_name, is_name_byte, is_reserved, same_text};
ghost use Rattle.em_script.specs.Names.{first_table};

use crate::named::Named;
use em_log::{GroupId, Name, NoMemory};
use std::alloc::Global;
use std::collections::BTreeMap;
use std::marker::Model;

const RESERVED: [&str; 88] = [
    "cores",
    "pool",
    "group",
    "eo",
    "running",
    "agroup",
    "queue",
    "atomic",
    "in",
    "parallel",
    "ordered",
    "local",
    "unscheduled",
    "output",
    "egroup",
    "boot",
    "error",
    "body",
    "done",
    "all",
    "lowest",
    "low",
    "normal",
    "high",
    "highest",
    "receive",
    "start",
    "stop",
    "lstart",
    "lstop",
    "kind",
    "size",
    "word",
    "me",
    "core",
    "cell",
    "ok",
    "fault",
    "detail",
    "add",
    "sub",
    "mul",
    "and",
    "or",
    "xor",
    "shr",
    "lt",
    "eq",
    "set",
    "if",
    "else",
    "end",
    "repeat",
    "say",
    "alloc",
    "free",
    "keep",
    "send",
    "sendg",
    "claim",
    "dequeue",
    "enable",
    "disable",
    "endatomic",
    "endordered",
    "endgroup",
    "apply",
    "increment",
    "abort",
    "modify",
    "fail",
    "note",
    "v0",
    "v1",
    "v2",
    "v3",
    "v4",
    "v5",
    "v6",
    "v7",
    "v8",
    "v9",
    "v10",
    "v11",
    "v12",
    "v13",
    "v14",
    "v15",
];

/// Whether the text is one of the words.
fn is_among(words: &[&str], text: &str) -> bool
    ensures { result ≡ list_any (same_text text.now) (map (λ word. word.now) words.now) }
{
    words.contains(&text)
}

fn is_reserved(text: &str) -> bool
    ensures { result ≡ is_reserved text.now }
{
    is_among(&RESERVED, text)
}

fn is_letter(byte: u8) -> bool
    ensures { result ≡ is_letter byte }
{
    97 <= byte && byte <= 122
}

fn is_name_byte(byte: u8) -> bool
    ensures { result ≡ is_name_byte byte }
{
    is_letter(byte) || (48 <= byte && byte <= 57) || byte == 95
}

fn are_name_bytes(bytes: &[u8]) -> bool
    ensures { result ≡ list_all is_name_byte bytes.now }
{
    bytes.iter().all(|byte| is_name_byte(*byte))
}

fn begins_well(bytes: &[u8]) -> bool
    ensures { result ≡ begins_well bytes.now }
{
    match bytes {
        [first, rest @ ..] => is_letter(*first) && are_name_bytes(rest),
        [] => false,
    }
}

/// Whether the text may be given as a name.
fn is_name(text: &str) -> bool
    ensures { result ≡ is_name text.now }
{
    begins_well(text.as_bytes()) && text.len() <= 16 && !is_reserved(text)
}

/// The token as a name, where it may be given as one.
pub(crate) fn name_of(token: &[u8]) -> Option<Name>
    ensures { result ≡ (if is_name token.now then Some token.now else None) }
{
    let Ok(text) = str::from_utf8(token) else {
        return None;
    };
    if is_name(text) { Name::new(text) } else { None }
}

/// The empty name, which stands where a name was not well formed.
pub(crate) fn no_name() -> Name
    ensures { result ≡ [] }
{
    match Name::new("") {
        Some(name) => name,
        None => unreachable!(),
    }
}

/// The names that stand for something so far.
#[derive(Drop)]
pub(crate) struct Names {
    meanings: BTreeMap<Vec<u8>, Named>,
}

impl Model for Names {
    ghost use Rattle.std.specs.Prelude.{ℕ, map};
    ghost use Rattle.std.specs.FinMap as table;
    ghost use Rattle.std.specs.Coded.{coded_ℕ, coded_list};
    ghost use Rattle.em_script.specs.Names.{Table};
    ghost use Rattle.em_script.specs.contracts.named.Named as meaning;

    ghost Value = { Table };

    ghost coded = { table.code (coded_list coded_ℕ) meaning.the_row.coded };

    ghost view = { λ names. table.from_entries (map (λ entry. (entry.0.items, entry.1)) names.meanings.entries) };
}

impl Names {
    /// At first there is the queue group of every core.
    pub(crate) fn first(alloc: Global) -> Result<Names, NoMemory>
        ensures { IfOk result (λ names. names ≡ first_table) }
    {
        let mut names = Names {
            meanings: BTreeMap::new(alloc),
        };
        names.insert(alloc, b"all", Named::Group(GroupId(0)))?;
        Ok(names)
    }

    /// What the token stands for.
    pub(crate) fn find(&self, token: &[u8]) -> Option<Named>
        ensures { result ≡ table.get self.now token.now }
    {
        self.meanings.get(token).copied()
    }

    pub(crate) fn insert(
        &mut self,
        alloc: Global,
        name: &[u8],
        meaning: Named,
    ) -> Result<(), NoMemory>
        ensures { OnOk result (self.new ≡ table.insert self.old name.now meaning) }
    {
        let Ok(key) = Vec::from_slice(alloc, name) else {
            return Err(NoMemory);
        };
        match self.meanings.insert(key, meaning) {
            Ok(_) => Ok(()),
            Err(_) => Err(NoMemory),
        }
    }
}
