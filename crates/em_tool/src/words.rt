//! The words of a command.
ghost use Rattle.std.specs.Prelude.{◌≡◌, ◌<◌, ◌↔◌, length, Contains, IsTrue, List as Items, IfOk, IfSome, map, string_bytes, [], ◌∷◌};
ghost use Rattle.std.specs.List.{list_any};
ghost use Rattle.clap.specs.Words.{app_of, subcommand_rows_of};
ghost use Rattle.em_tool.specs.Splitting.{AreValues, command_line, is_option, words_in};
ghost use Rattle.em_tool.specs.Words.{IsCommand, IsOrder, IsSolo};
ghost use Rattle.em_tool.specs.declared.commands.Command.{Command};
ghost use Rattle.em_tool.specs.declared.commands.Solo.{Solo};

use crate::commands::{Command, Solo};
use crate::decimal::{number, numbers};
use clap::error::ErrorKind;
use clap::{Arg, ArgMatches};
use em_log::{Limits, List, NoMemory};
use std::alloc::{AllocError, Global};

fn contains(numbers: &[u64], n: u64) -> bool
    ensures { IsTrue result ↔ Contains numbers.now n }
{
    numbers.iter().any(|m| *m == n)
}

/// The cores of these numbers.
fn order_of(alloc: Global, numbers: &[u64]) -> Result<Option<List<u8>>, NoMemory>
    requires { 0 < length numbers.now }
    ensures order { IfOk result (λ found. IfSome found (λ order. (order ≡ numbers.now) × IsOrder order)) }
    ensures known { IsOrder numbers.now → IfOk result (λ found. found ≡ Some numbers.now) }
{
    if numbers.len() > 64 {
        return Ok(None);
    }
    let mut order = List::new(alloc);
    for (i, n) in numbers.iter().enumerate() {
        if *n >= 64 {
            return Ok(None);
        }
        if contains(&numbers[..i], *n) {
            return Ok(None);
        }
        order.push(*n as u8)?;
    }
    Ok(Some(order))
}

/// The command of these four words.
fn solo_of(
    alloc: Global,
    name: &str,
    limit: &str,
    burst: &str,
    order: &str,
) -> Result<Option<Solo>, NoMemory>
    ensures is_solo { IfOk result (λ found. IfSome found (IsSolo (name.now ∷ limit.now ∷ burst.now ∷ order.now ∷ []))) }
    ensures known { (solo : Solo) → IsSolo (name.now ∷ limit.now ∷ burst.now ∷ order.now ∷ []) solo → IfOk result (λ found. found ≡ Some solo) }
{
    if name != "solo" {
        return Ok(None);
    }
    if burst != "1" {
        return Ok(None);
    }
    let Some(receives) = number(limit) else {
        return Ok(None);
    };
    if receives < 1 {
        return Ok(None);
    }
    if receives > 10000 {
        return Ok(None);
    }
    let Some(numbers) = numbers(alloc, order, ',')? else {
        return Ok(None);
    };
    let Some(order) = order_of(alloc, numbers.as_slice())? else {
        return Ok(None);
    };
    let limits = Limits {
        receives: receives as u16,
        burst: 1,
    };
    Ok(Some(Solo { limits, order }))
}

/// The command of this one word.
fn check_of(word: &str) -> Option<Command>
    ensures is_check { IfSome result (IsCommand (word.now ∷ [])) }
    ensures known { (asked : Command) → IsCommand (word.now ∷ []) asked → result ≡ Some asked }
{
    if word == "check" {
        Some(Command::Check)
    } else {
        None
    }
}

/// Whether the word begins with `-`.
fn is_option(word: &str) -> bool
    ensures { result ≡ is_option word.now }
{
    match word.as_bytes() {
        [first, ..] => *first == 45,
        [] => false,
    }
}

/// Whether one of the words begins with `-`.
fn has_option(words: &[String]) -> bool
    ensures { result ≡ list_any is_option (map string_bytes words.now) }
{
    for word in words {
        if is_option(word.as_str()) {
            return true;
        }
    }
    false
}

/// Whether the words are to be split: none begins with `-`, and the first is not `help`.
fn are_values(words: &[String]) -> bool
    ensures { IsTrue result ↔ AreValues (map string_bytes words.now) }
{
    if has_option(words) {
        return false;
    }
    match words {
        [first, ..] => first.as_str() != "help",
        [] => true,
    }
}

/// One level of subcommands: `solo` with three values, and `check` with none.
fn command_line<'a>(alloc: Global) -> Result<clap::Command<'a>, AllocError>
    ensures { IfOk result (λ line. app_of line ≡ command_line) }
{
    let limit = Arg::new(alloc, "LIMIT").required(true);
    let burst = Arg::new(alloc, "BURST").required(true);
    let order = Arg::new(alloc, "ORDER").required(true);
    let solo = clap::Command::new(alloc, "solo")
        .arg(limit)?
        .arg(burst)?
        .arg(order)?;
    let check = clap::Command::new(alloc, "check");
    clap::Command::new(alloc, "emrun")
        .no_binary_name(true)
        .subcommand(solo)?
        .subcommand(check)
}

/// The command of the subcommand and its values.
fn command_in(alloc: Global, matches: &ArgMatches) -> Result<Option<Command>, NoMemory>
    ensures is_command { IfOk result (λ found. IfSome found (IsCommand (words_in (subcommand_rows_of matches.now)))) }
    ensures known { (asked : Command) → IsCommand (words_in (subcommand_rows_of matches.now)) asked → IfOk result (λ found. found ≡ Some asked) }
{
    let Some((name, values)) = matches.subcommand() else {
        return Ok(None);
    };
    let Some(limit) = values.get_str("LIMIT") else {
        return Ok(check_of(name));
    };
    let Some(burst) = values.get_str("BURST") else {
        return Ok(check_of(name));
    };
    let Some(order) = values.get_str("ORDER") else {
        return Ok(check_of(name));
    };
    let solo = solo_of(alloc, name, limit, burst, order)?;
    Ok(solo.map(Command::Solo))
}

/// The command that the words are.
pub fn command(alloc: Global, words: &[String]) -> Result<Option<Command>, NoMemory>
    ensures is_command { IfOk result (λ found. IfSome found (IsCommand (map string_bytes words.now))) }
    ensures known { (asked : Command) → IsCommand (map string_bytes words.now) asked → IfOk result (λ found. found ≡ Some asked) }
{
    if !are_values(words) {
        return Ok(None);
    }
    let Ok(line) = command_line(alloc) else {
        return Err(NoMemory);
    };
    match line.try_get_matches_from(words) {
        Ok(matches) => command_in(alloc, &matches),
        Err(error) => match error.kind() {
            ErrorKind::OutOfMemory => Err(NoMemory),
            _ => Ok(None),
        },
    }
}
