//! Names by their places.
ghost use Rattle.std.specs.Prelude.{◌≡◌, ◌++◌, [], OnOk, slice_index_or};

use rv_model::Names;
use rv_text::Line;
use std::alloc::AllocError;

/// Appends the name at this place, where there is one.
pub fn put_name(out: &mut Line, names: &Names, place: usize) -> Result<(), AllocError>
    ensures { OnOk result (out.new ≡ out.old ++ slice_index_or names.now place []) }
{
    if place < names.len() {
        out.text(names.get(place).bytes())
    } else {
        Ok(())
    }
}
