//! Lists of what was read, line by line.
ghost use Rattle.std.specs.Prelude.{◌≡◌, ◌++◌, option_to_list, OnOk};

use std::alloc::AllocError;

/// Appends the item, where there is one.
pub fn push_some<X: Drop>(items: &mut Vec<X>, read: Option<X>) -> Result<(), AllocError>
    ensures { OnOk result (items.new.items ≡ items.old.items ++ option_to_list read) }
{
    if let Some(item) = read {
        items.push(item)?;
    }
    Ok(())
}
