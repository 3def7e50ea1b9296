//! The names in a line: one that is declared, and those that are used.
ghost use Rattle.std.specs.Prelude.{◌≡◌};
ghost use Rattle.em_script.specs.Form.{Reads, new_name, pool_name, group_name, eo_name, agroup_name, queue_name, egroup_name};
ghost use Rattle.em_script.specs.Names.{reading};

use crate::named::Named;
use crate::names::{Names, name_of, no_name};
use crate::tokens::{Stop, Tokens};
use em_log::{EoId, EventGroupId, GroupId, Name, PoolId, QueueId};

/// A name that is declared. It is empty where the token is no name.
pub(crate) fn new_name(line: &mut Tokens, names: &Names) -> Result<Name, Stop>
    ensures { Reads result line.new ((new_name (reading names.now)).read line.old) }
{
    let token = line.token()?;
    let name = name_of(token);
    line.judge(3, name.is_some());
    line.judge(4, names.find(token).is_none());
    match name {
        Some(name) => Ok(name),
        None => Ok(no_name()),
    }
}

pub(crate) fn pool(line: &mut Tokens, names: &Names) -> Result<PoolId, Stop>
    ensures { Reads result line.new ((pool_name (reading names.now)).read line.old) }
{
    let token = line.token()?;
    if let Some(Named::Pool(id)) = names.find(token) {
        return Ok(id);
    }
    line.judge(5, false);
    Ok(PoolId(0))
}

pub(crate) fn group(line: &mut Tokens, names: &Names) -> Result<GroupId, Stop>
    ensures { Reads result line.new ((group_name (reading names.now)).read line.old) }
{
    let token = line.token()?;
    if let Some(Named::Group(id)) = names.find(token) {
        return Ok(id);
    }
    line.judge(5, false);
    Ok(GroupId(0))
}

pub(crate) fn eo(line: &mut Tokens, names: &Names) -> Result<EoId, Stop>
    ensures { Reads result line.new ((eo_name (reading names.now)).read line.old) }
{
    let token = line.token()?;
    if let Some(Named::Eo(id)) = names.find(token) {
        return Ok(id);
    }
    line.judge(5, false);
    Ok(EoId(0))
}

pub(crate) fn agroup(line: &mut Tokens, names: &Names) -> Result<u8, Stop>
    ensures { Reads result line.new ((agroup_name (reading names.now)).read line.old) }
{
    let token = line.token()?;
    if let Some(Named::Agroup(n)) = names.find(token) {
        return Ok(n);
    }
    line.judge(5, false);
    Ok(0)
}

pub(crate) fn queue(line: &mut Tokens, names: &Names) -> Result<QueueId, Stop>
    ensures { Reads result line.new ((queue_name (reading names.now)).read line.old) }
{
    let token = line.token()?;
    if let Some(Named::Queue(id)) = names.find(token) {
        return Ok(id);
    }
    line.judge(5, false);
    Ok(QueueId(0))
}

pub(crate) fn egroup(line: &mut Tokens, names: &Names) -> Result<EventGroupId, Stop>
    ensures { Reads result line.new ((egroup_name (reading names.now)).read line.old) }
{
    let token = line.token()?;
    if let Some(Named::Egroup(id)) = names.find(token) {
        return Ok(id);
    }
    line.judge(5, false);
    Ok(EventGroupId(0))
}
