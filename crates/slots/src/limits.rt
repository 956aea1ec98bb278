// The limits of the stack: at most 16,000 bytes, and a depth that they hold.
ghost use Rattle.std.specs.Prelude.{◌≡◌};
ghost use Rattle.slots.specs.Reports.{over_limits};

// The depth may be any number at all, so it is never multiplied before it is known to fit: 16,000 bytes hold 3,200 slots.
pub fn over_limits(stack: &[u8], depth: usize) -> bool
    ensures { result ≡ over_limits stack.now depth }
{
    if 16000 < stack.len() {
        return true;
    }
    if 3200 < depth {
        return true;
    }
    stack.len() < 5 * depth
}
