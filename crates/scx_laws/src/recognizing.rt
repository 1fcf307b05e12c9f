ghost use Rattle.std.specs.Prelude.{◌≡◌, ◌↔◌, true, [], ◌∷◌, IfOk};
ghost use Rattle.std.specs.Str.{bytes_eq};
ghost use Rattle.scx_laws.specs.Serving.{Serves, one_queue, one_bytes};

use scx_isa::encode;
use scx_verify::Verified;
use std::alloc::{AllocError, Global};

/// The bytes of the dispatch of `fifo`: `r1 = 0; call 1004; exit`.
const ONE_QUEUE: [u8; 24] = [
    0xb7, 1, 0, 0, 0, 0, 0, 0, 0x85, 0, 0, 0, 0xec, 3, 0, 0, 0x95, 0, 0, 0, 0, 0, 0, 0,
];

/// True if a verified program is the dispatch of `fifo`, by its bytes. Then it serves queue 0, and the laws of served
/// queues hold of its policy.
pub fn serves_queue_0(alloc: Global, program: &Verified) -> Result<bool, AllocError>
    ensures exact { IfOk result (λ yes. (yes ≡ true) ↔ (program.now.code ≡ one_queue)) }
    ensures serves { IfOk result (λ yes. yes ≡ true → Serves (0 ∷ []) program.now) }
{
    let bytes = encode(alloc, program.program())?;
    Ok(is_one_queue(&bytes))
}

/// True if the bytes are those of that program.
fn is_one_queue(bytes: &[u8]) -> bool
    ensures { result ≡ bytes_eq bytes.now one_bytes }
{
    bytes == ONE_QUEUE.as_slice()
}
