//! Expressions, names and statements as tokens.
ghost use Rattle.std.specs.Prelude.{◌≡◌, ◌∷◌, ◌++◌, [], OnOk, flat_map, codes};
ghost use Rattle.em_script.specs.Expressions.{expression, symbols_of, word_of};
ghost use Rattle.em_script.specs.Lines.{joined, spaced};
ghost use Rattle.em_script.specs.Names.{name_in, writing};
ghost use Rattle.em_script.specs.Statements.{alloc_form, cell_form, claim_form, dequeue_form, note, notes, send_form, sendg_form, set_form, statement_tokens};

use crate::named::Named;
use crate::text::Text;
use em_log::{Config, EoId, EventGroupId, Expr, GroupId, NoMemory, PoolId, QueueId, Stmt};

/// An operator with its two operands.
#[cycle(expression)]
fn operation(text: &mut Text, word: &str, first: &Expr, second: &Expr) -> Result<(), NoMemory>
    ensures { OnOk result (text.new ≡ text.old ++ spaced (word.now ∷ (expression.write first.now ++ expression.write second.now))) }
{
    text.word(word)?;
    expression(text, first)?;
    expression(text, second)
}

#[cycle(expression)]
pub(crate) fn expression(text: &mut Text, expr: &Expr) -> Result<(), NoMemory>
    ensures { OnOk result (text.new ≡ text.old ++ spaced (expression.write expr.now)) }
{
    match expr {
        Expr::Number(n) => text.number(*n),
        Expr::Var(v) => text.variable(*v),
        Expr::Kind => text.word("kind"),
        Expr::Size => text.word("size"),
        Expr::Word(operand) => {
            text.word("word")?;
            expression(text, operand.get())
        }
        Expr::Me => text.word("me"),
        Expr::Queue => text.word("queue"),
        Expr::Core => text.word("core"),
        Expr::Cell(operand) => {
            text.word("cell")?;
            expression(text, operand.get())
        }
        Expr::LastOk => text.word("ok"),
        Expr::FaultNumber => text.word("fault"),
        Expr::Detail => text.word("detail"),
        Expr::Add(first, second) => operation(text, "add", first.get(), second.get()),
        Expr::Sub(first, second) => operation(text, "sub", first.get(), second.get()),
        Expr::Mul(first, second) => operation(text, "mul", first.get(), second.get()),
        Expr::And(first, second) => operation(text, "and", first.get(), second.get()),
        Expr::Or(first, second) => operation(text, "or", first.get(), second.get()),
        Expr::Xor(first, second) => operation(text, "xor", first.get(), second.get()),
        Expr::Shr(first, second) => operation(text, "shr", first.get(), second.get()),
        Expr::Lt(first, second) => operation(text, "lt", first.get(), second.get()),
        Expr::Eq(first, second) => operation(text, "eq", first.get(), second.get()),
    }
}

fn group_name(config: &Config, id: GroupId) -> &str
    ensures { result.now ≡ name_in config.now (Named.Group id) }
{
    if id.0 == 0 {
        return "all";
    }
    match config.groups.as_slice().get(usize::from(id.0) - 1) {
        Some(decl) => decl.name.as_str(),
        None => "",
    }
}

/// The name of what the graph declares; empty where it does not.
fn name_of(config: &Config, named: Named) -> &str
    ensures { result.now ≡ name_in config.now named }
{
    match named {
        Named::Pool(id) => match config.pools.as_slice().get(usize::from(id.0)) {
            Some(decl) => decl.name.as_str(),
            None => "",
        },
        Named::Group(id) => group_name(config, id),
        Named::Eo(id) => match config.eos.as_slice().get(usize::from(id.0)) {
            Some(decl) => decl.name.as_str(),
            None => "",
        },
        Named::Agroup(n) => match config.agroups.as_slice().get(usize::from(n)) {
            Some(decl) => decl.name.as_str(),
            None => "",
        },
        Named::Queue(id) => match config.queues.as_slice().get(usize::from(id.0)) {
            Some(decl) => decl.name.as_str(),
            None => "",
        },
        Named::Egroup(id) => match config.egroups.as_slice().get(usize::from(id.0)) {
            Some(name) => name.as_str(),
            None => "",
        },
    }
}

/// The name of what the graph declares.
pub(crate) fn name(text: &mut Text, config: &Config, named: Named) -> Result<(), NoMemory>
    ensures { OnOk result (text.new ≡ text.old ++ spaced (name_in config.now named ∷ [])) }
{
    text.word(name_of(config, named))
}

fn note(text: &mut Text, config: &Config, each: &(Expr, QueueId)) -> Result<(), NoMemory>
    ensures { OnOk result (text.new ≡ text.old ++ spaced ((note (writing config.now)).write each.now)) }
{
    text.word("note")?;
    expression(text, &each.0)?;
    name(text, config, Named::Queue(each.1))
}

fn notes(text: &mut Text, config: &Config, list: &[(Expr, QueueId)]) -> Result<(), NoMemory>
    ensures { OnOk result (text.new ≡ text.old ++ spaced ((notes (writing config.now)).write list.now)) }
{
    for each in list {
        note(text, config, each)?;
    }
    Ok(())
}

fn expressions(text: &mut Text, expressions: &[Expr]) -> Result<(), NoMemory>
    ensures { OnOk result (text.new ≡ text.old ++ spaced (flat_map expression.write expressions.now)) }
{
    for each in expressions {
        expression(text, each)?;
    }
    Ok(())
}

/// A word with an expression.
pub(crate) fn with_value(text: &mut Text, word: &str, value: &Expr) -> Result<(), NoMemory>
    ensures { OnOk result (text.new ≡ text.old ++ joined (word.now ∷ expression.write value.now)) }
{
    text.begin(word)?;
    expression(text, value)
}

/// A word with a name.
fn with_name(text: &mut Text, word: &str, config: &Config, named: Named) -> Result<(), NoMemory>
    ensures { OnOk result (text.new ≡ text.old ++ joined (word.now ∷ name_in config.now named ∷ [])) }
{
    text.begin(word)?;
    name(text, config, named)
}

fn set(text: &mut Text, v: u8, value: &Expr) -> Result<(), NoMemory>
    ensures { OnOk result (text.new ≡ text.old ++ joined (codes "set" ∷ set_form.write (v, (value.now, tt)))) }
{
    text.begin("set")?;
    text.variable(v)?;
    expression(text, value)
}

fn cell(text: &mut Text, cell: &Expr, value: &Expr) -> Result<(), NoMemory>
    ensures { OnOk result (text.new ≡ text.old ++ joined (codes "cell" ∷ cell_form.write (cell.now, (value.now, tt)))) }
{
    with_value(text, "cell", cell)?;
    expression(text, value)
}

fn alloc(
    text: &mut Text,
    config: &Config,
    v: u8,
    pool: PoolId,
    kind: &Expr,
    words: &[Expr],
) -> Result<(), NoMemory>
    ensures { OnOk result (text.new ≡ text.old ++ joined (codes "alloc" ∷ (alloc_form (writing config.now)).write (v, (pool, (kind.now, words.now))))) }
{
    text.begin("alloc")?;
    text.variable(v)?;
    name(text, config, Named::Pool(pool))?;
    expression(text, kind)?;
    expressions(text, words)
}

fn send(text: &mut Text, config: &Config, word: &Expr, queue: QueueId) -> Result<(), NoMemory>
    ensures { OnOk result (text.new ≡ text.old ++ joined (codes "send" ∷ (send_form (writing config.now)).write (word.now, (queue, tt)))) }
{
    with_value(text, "send", word)?;
    name(text, config, Named::Queue(queue))
}

fn send_in_group(
    text: &mut Text,
    config: &Config,
    word: &Expr,
    queue: QueueId,
    group: EventGroupId,
) -> Result<(), NoMemory>
    ensures { OnOk result (text.new ≡ text.old ++ joined (codes "sendg" ∷ (sendg_form (writing config.now)).write (word.now, (queue, (group, tt))))) }
{
    with_value(text, "sendg", word)?;
    name(text, config, Named::Queue(queue))?;
    name(text, config, Named::Egroup(group))
}

fn claim(text: &mut Text, v: u8) -> Result<(), NoMemory>
    ensures { OnOk result (text.new ≡ text.old ++ joined (codes "claim" ∷ claim_form.write (v, tt))) }
{
    text.begin("claim")?;
    text.variable(v)
}

fn dequeue(text: &mut Text, config: &Config, v: u8, queue: QueueId) -> Result<(), NoMemory>
    ensures { OnOk result (text.new ≡ text.old ++ joined (codes "dequeue" ∷ (dequeue_form (writing config.now)).write (v, (queue, tt)))) }
{
    text.begin("dequeue")?;
    text.variable(v)?;
    name(text, config, Named::Queue(queue))
}

/// A word with a name and notes.
fn noted(
    text: &mut Text,
    word: &str,
    config: &Config,
    named: Named,
    list: &[(Expr, QueueId)],
) -> Result<(), NoMemory>
    ensures { OnOk result (text.new ≡ text.old ++ joined (word.now ∷ name_in config.now named ∷ (notes (writing config.now)).write list.now)) }
{
    with_name(text, word, config, named)?;
    notes(text, config, list)
}

/// A word with a name, an expression and notes.
fn valued(
    text: &mut Text,
    word: &str,
    config: &Config,
    named: Named,
    value: &Expr,
    list: &[(Expr, QueueId)],
) -> Result<(), NoMemory>
    ensures { OnOk result (text.new ≡ text.old ++ joined (word.now ∷ name_in config.now named ∷ (expression.write value.now ++ (notes (writing config.now)).write list.now))) }
{
    with_name(text, word, config, named)?;
    expression(text, value)?;
    notes(text, config, list)
}

/// A statement that is no block, without the end of its line.
pub(crate) fn statement(text: &mut Text, config: &Config, statement: &Stmt) -> Result<(), NoMemory>
    ensures { OnOk result (text.new ≡ text.old ++ joined (statement_tokens (writing config.now) statement.now)) }
{
    match statement {
        Stmt::Set { v, value } => set(text, *v, value),
        Stmt::CellWrite { cell: at, value } => cell(text, at, value),
        Stmt::Say(value) => with_value(text, "say", value),
        Stmt::Alloc {
            v,
            pool,
            kind,
            words,
        } => alloc(text, config, *v, *pool, kind, words.as_slice()),
        Stmt::Free(word) => with_value(text, "free", word),
        Stmt::Keep(word) => with_value(text, "keep", word),
        Stmt::Send { word, queue } => send(text, config, word, *queue),
        Stmt::SendG { word, queue, group } => send_in_group(text, config, word, *queue, *group),
        Stmt::Claim { v } => claim(text, *v),
        Stmt::Dequeue { v, queue } => dequeue(text, config, *v, *queue),
        Stmt::Enable(queue) => with_name(text, "enable", config, Named::Queue(*queue)),
        Stmt::Disable(queue) => with_name(text, "disable", config, Named::Queue(*queue)),
        Stmt::EndAtomic => text.begin("endatomic"),
        Stmt::EndOrdered => text.begin("endordered"),
        Stmt::EndGroup => text.begin("endgroup"),
        Stmt::Apply {
            group,
            count,
            notes,
        } => valued(
            text,
            "apply",
            config,
            Named::Egroup(*group),
            count,
            notes.as_slice(),
        ),
        Stmt::Increment(n) => with_value(text, "increment", n),
        Stmt::Abort(group) => with_name(text, "abort", config, Named::Egroup(*group)),
        Stmt::Start { eo, notes } => {
            noted(text, "start", config, Named::Eo(*eo), notes.as_slice())
        }
        Stmt::Stop { eo, notes } => noted(text, "stop", config, Named::Eo(*eo), notes.as_slice()),
        Stmt::Modify { group, mask, notes } => {
            let named = Named::Group(*group);
            valued(text, "modify", config, named, mask, notes.as_slice())
        }
        Stmt::Fail => text.begin("fail"),
        Stmt::If { .. } | Stmt::Repeat { .. } => Ok(()),
    }
}
