//! Copies of paths.
ghost use Rattle.std.specs.Prelude.{◌≡◌, IfOk};
ghost use Rattle.sj_scripts.specs.Script.{part_view, path_view};

use sj_scripts::PathPart;
use std::alloc::{AllocError, Global};

pub(crate) fn copy_path(alloc: Global, path: &[PathPart]) -> Result<Vec<PathPart>, AllocError>
    ensures { IfOk result (λ copy. path_view copy.items ≡ path_view path.now) }
{
    let mut copy = Vec::with_capacity(alloc, path.len())?;
    for part in path {
        copy.push(copy_part(part)?)?;
    }
    Ok(copy)
}

fn copy_part(part: &PathPart) -> Result<PathPart, AllocError>
    ensures { IfOk result (λ copy. part_view copy ≡ part_view part.now) }
{
    match part {
        PathPart::Key(key) => Ok(PathPart::Key(key.clone()?)),
        PathPart::Item(place) => Ok(PathPart::Item(*place)),
    }
}
