//! Which of two notifications is the newer.

ghost use Rattle.std.specs.Prelude.{◌≡◌, ◌↔◌, IsTrue};
ghost use Rattle.observe_share.specs.Newer.{IsNewer, newer};

/// Half of the numbers that an Observe option can have.
const HALF: u32 = 1 << 23;

/// How long a number is told from those before it, in milliseconds: 128 s.
const SPAN: u64 = 128_000;

/// Whether a notification with the number `v2` that came at the moment `t2` was sent later than one
/// with `v1` that came at `t1` (RFC 7641, section 3.4). Moments are milliseconds.
pub fn newer(v1: u32, t1: u64, v2: u32, t2: u64) -> bool
    ensures formula { IsTrue result ↔ IsNewer v1 t1 v2 t2 }
    ensures value { result ≡ newer v1 t1 v2 t2 }
{
    v1 < v2 && v2 - v1 < HALF || v1 > v2 && v1 - v2 > HALF || t2 > t1 && t2 - t1 > SPAN
}
