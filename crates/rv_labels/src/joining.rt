//! Lists of cubes, one after the other or joined.
ghost use Rattle.std.specs.Prelude.{◌≡◌, ◌++◌, IfOk, OnOk, if◌then◌else◌};
ghost use Rattle.rv_labels.specs.Cubes.{unions_with, cube_unions};

use crate::cube::{Cube, is_free, union};
use std::alloc::{AllocError, Global};

/// Appends the unions of a cube with those of a list, without the ones that no letter meets.
fn add_unions(out: &mut Vec<Cube>, left: Cube, right: &[Cube]) -> Result<(), AllocError>
    ensures { OnOk result (out.new.items ≡ out.old.items ++ unions_with right.now left) }
{
    for cube in right {
        let both = union(left, *cube);
        if is_free(both) {
            out.push(both)?;
        }
    }
    Ok(())
}

/// The unions of a cube of the first list and one of the second, the first one outermost.
pub fn join(alloc: Global, left: &[Cube], right: &[Cube]) -> Result<Vec<Cube>, AllocError>
    ensures { IfOk result (λ cubes. cubes.items ≡ cube_unions left.now right.now) }
{
    let mut out = Vec::new(alloc);
    for cube in left {
        add_unions(&mut out, *cube, right)?;
    }
    Ok(out)
}

/// The joined lists, or one after the other.
pub fn combine(
    alloc: Global,
    left: Vec<Cube>,
    right: Vec<Cube>,
    together: bool,
) -> Result<Vec<Cube>, AllocError>
    ensures { IfOk result (λ cubes. cubes.items ≡ (if together then cube_unions left.items right.items else left.items ++ right.items)) }
{
    if together {
        return join(alloc, &left, &right);
    }
    let mut cubes = left;
    cubes.extend_from_slice(&right)?;
    Ok(cubes)
}
