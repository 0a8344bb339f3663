ghost use Rattle.std.specs.Prelude.{◌≡◌, replicate, vec_len, IfOk};

use std::alloc::{AllocError, Global};

/// So many bytes of 0.
pub fn zeros(alloc: Global, count: usize) -> Result<Vec<u8>, AllocError>
    ensures length { IfOk result (λ bytes. vec_len bytes ≡ count) }
    ensures zeros { IfOk result (λ bytes. bytes.items ≡ replicate count 0) }
{
    vec![in alloc; 0; count]
}
