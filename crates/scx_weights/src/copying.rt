ghost use Rattle.std.specs.Prelude.{◌≡◌, length};

/// Replaces the items by the others, of which there are as many. A single one is set without a call.
#[inline(always)]
pub(crate) fn copy_all<T: Copy>(items: &mut Vec<T>, others: &[T])
    requires { length items.old.items ≡ length others.now }
    ensures { items.new.items ≡ others.now }
{
    if others.len() == 1 {
        items[0] = others[0];
        return;
    }
    items.copy_from_slice(others);
}
