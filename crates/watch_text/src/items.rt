//! Lists of a line, with commas between their items.

ghost use Rattle.std.specs.Prelude.{◌++◌, ◌≡◌, decimal, List, OnOk, ℕ};
ghost use Rattle.std.specs.String.{string_bytes};
ghost use Rattle.watch_text.specs.Fields.{items_field, items_text, more_items};

use crate::fields::{put_digits, put_text};
use std::alloc::AllocError;

/// An item of a list in a line.
pub(crate) trait ListItem {
    /// Its text.
    ghost text: { Self → List ℕ };

    /// Puts its text behind a line.
    fn put(&self, line: &mut String) -> Result<(), AllocError>
        ensures { OnOk result (string_bytes line.new ≡ string_bytes line.old ++ text self.now) };
}

impl ListItem for usize {
    ghost text = { decimal };

    fn put(&self, line: &mut String) -> Result<(), AllocError> {
        put_digits(line, *self as u64)
    }
}

/// Items behind commas.
fn put_more<T: ListItem>(line: &mut String, items: &[T]) -> Result<(), AllocError>
    ensures { OnOk result (string_bytes line.new ≡ string_bytes line.old ++ more_items T.text items.now) }
{
    for item in items {
        put_text(line, ",")?;
        item.put(line)?;
    }
    Ok(())
}

/// Items with commas between them.
pub(crate) fn put_items<T: ListItem>(line: &mut String, items: &[T]) -> Result<(), AllocError>
    ensures { OnOk result (string_bytes line.new ≡ string_bytes line.old ++ items_text T.text items.now) }
{
    let Some((first, rest)) = items.split_first() else {
        return Ok(());
    };
    first.put(line)?;
    put_more(line, rest)
}

/// Items under a name, where there are any.
pub(crate) fn put_list<T: ListItem>(
    line: &mut String,
    name: &str,
    items: &[T],
) -> Result<(), AllocError>
    ensures { OnOk result (string_bytes line.new ≡ string_bytes line.old ++ items_field name.now T.text items.now) }
{
    if items.is_empty() {
        return Ok(());
    }
    put_text(line, ",\"")?;
    put_text(line, name)?;
    put_text(line, "\":[")?;
    put_items(line, items)?;
    put_text(line, "]")
}
