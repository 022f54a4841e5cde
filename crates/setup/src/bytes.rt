ghost use Rattle.std.specs.Prelude.{◌≡◌, replicate, IfOk};

use std::alloc::{AllocError, Global};

// So many bytes, all the same.
pub fn filled(heap: Global, count: usize, byte: u8) -> Result<Vec<u8>, AllocError>
    ensures { IfOk result (λ v. v.items ≡ replicate count byte) }
{
    vec![in heap; byte; count]
}
