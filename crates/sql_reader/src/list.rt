//! Adds to lists.
ghost use Rattle.sql_reader.specs.inner.Reads.{IsPush};

use crate::cursor::Unread;
use adv_base::List;

/// Adds a value behind the others.
pub fn push<T: Drop>(list: &mut List<T>, value: T) -> Result<(), Unread>
    ensures { IsPush list.old value result list.new }
{
    match list.items.push(value) {
        Ok(()) => Ok(()),
        Err(_) => Err(Unread::Memory),
    }
}
