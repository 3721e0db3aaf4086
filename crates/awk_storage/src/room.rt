// Values that are put behind others: in line where there is room for one more.

ghost use Rattle.std.specs.Prelude.{◌≡◌, ◌<◌, [], ◌∷◌, ◌++◌, vec_len, vec_capacity, OnOk, OnErr};

use std::alloc::AllocError;

/// Makes room for one more. The values stay as they are.
#[inline(never)]
fn make_room<T: Drop>(values: &mut Vec<T>) -> Result<(), AllocError>
    ensures kept { values.new.items ≡ values.old.items }
    ensures room { OnOk result (vec_len values.new < vec_capacity values.new) }
{
    values.reserve(1)
}

/// Puts a value behind the others. An `Err`, which is want of memory, changes none.
#[inline(always)]
pub fn push<T: Drop>(values: &mut Vec<T>, value: T) -> Result<(), AllocError>
    ensures pushed { OnOk result (values.new.items ≡ values.old.items ++ value ∷ []) }
    ensures unchanged { OnErr result (values.new.items ≡ values.old.items) }
{
    if values.len() == values.capacity() {
        make_room(values)?;
    }
    values.push_reserved(value);
    Ok(())
}
