ghost use Rattle.std.specs.Prelude.{◌≡◌, IfOk};

use std::alloc::{AllocError, Global};

/// A value that can be copied where there is memory for it.
pub trait Copied {
    /// An equal value. It is refused only for want of memory.
    fn copy(&self, alloc: Global) -> Result<Self, AllocError>
    where
        Self: Sized,
        ensures equal { IfOk result (λ x. x ≡ self.now) };
}
