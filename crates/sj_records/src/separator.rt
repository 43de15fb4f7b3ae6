//! Commas between the elements of an array.
ghost use Rattle.std.specs.Prelude.{◌≡◌, ◌++◌, OnOk};
ghost use Rattle.sj_records.specs.inside.Separator.{separator};

use std::alloc::AllocError;

/// Appends a comma unless the element after it is the first.
pub(crate) fn put_separator(is_first: bool, out: &mut Vec<u8>) -> Result<(), AllocError>
    ensures { OnOk result (out.new.items ≡ out.old.items ++ separator is_first) }
{
    if !is_first {
        out.push(b',')?;
    }
    Ok(())
}
