ghost use Rattle.std.specs.Prelude.{◌≡◌, ◌<◌, IfSome, flat_map, length, slice_get};

use group_lists::{HasLists, Lists};

/// How many groups all ranks have, or `None` where that is no `u32`.
pub(crate) fn group_count<H: HasLists>(lists: &[H]) -> Option<u32>
    ensures { IfSome result (λ count. count ≡ length (flat_map H.has lists.now)) }
{
    let mut count = 0u32;
    for has in lists {
        count = count.checked_add(has.lists().groups())?;
    }
    Some(count)
}

/// The lists that have the group of this number, and its number among them. Groups are numbered over the ranks.
pub(crate) fn group_of<H: HasLists>(lists: &[H], number: u32) -> (&Lists, u32)
    requires { number < length (flat_map H.has lists.now) }
    ensures within { result.1 < length result.0.now.groups }
    ensures same { slice_get result.0.now.groups result.1 ≡ slice_get (flat_map H.has lists.now) number }
{
    let mut left = number;
    for has in lists {
        let lists = has.lists();
        if left < lists.groups() {
            return (lists, left);
        }
        left -= lists.groups();
    }
    unreachable!()
}
