//! The names of variables and recursions: `a` to `z`, `a1` to `z1`, `a2` to `z2` and so on.
ghost use Rattle.std.specs.Prelude.{◌≡◌, ◌++◌, OnOk};
ghost use Rattle.mls_print.specs.Keys.{name_at};

use mls_base::memory::Memory;
use std::alloc::Global;

/// Writes the name of this number.
pub fn write_name(alloc: Global, text: &mut Vec<u8>, number: usize) -> Result<(), Memory>
    ensures { OnOk result (text.new.items ≡ text.old.items ++ name_at number) }
{
    text.push(b'a' + (number % 26) as u8)?;
    if number >= 26 {
        text.extend_from_slice((number / 26).to_string(alloc)?.as_bytes())?;
    }
    Ok(())
}
