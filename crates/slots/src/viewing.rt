// The view: the top number's own five bytes, as a part of the caller's slice. No bytes, and not None, where there is no top, as C and `view_of` have it.
ghost use Rattle.std.specs.Prelude.{◌≡◌};
ghost use Rattle.slots.specs.View.{view_of};

use crate::reach::lacks;

pub fn view(stack: &[u8], depth: usize) -> &[u8]
    ensures { result.now ≡ view_of stack.now depth }
{
    if lacks(stack, depth, 1) {
        return &stack[0..0];
    }
    let start = 5 * (depth - 1);
    &stack[start..start + 5]
}
