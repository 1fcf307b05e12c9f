ghost use Rattle.std.specs.Prelude.{◌≡◌};
ghost use Rattle.scx_weights.specs.Hierarchy.{path};
ghost use Rattle.scx_weights.specs.GroupPaths.{there, parent_if};

use crate::{Group, MAX_DEPTH};

/// A group and all that it lies in, up to the top; none after that.
pub fn path_of(groups: &[Group], group: u32) -> [Option<u32>; MAX_DEPTH]
    ensures { there result ≡ path groups.now group }
{
    let parent = parent_of(groups, Some(group));
    let top = parent_of(groups, parent);
    [Some(group), parent, top]
}

/// The parent of a group, if there is a group and it isn't at the top.
fn parent_of(groups: &[Group], group: Option<u32>) -> Option<u32>
    ensures { result ≡ parent_if groups.now group }
{
    match groups.get(group? as usize) {
        Some(group) => group.parent,
        None => None,
    }
}
