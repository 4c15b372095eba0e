// Lock sets as numbers: bit k stands for name k.
ghost use Rattle.std.specs.Prelude.{◌≡◌, ◌+◌, ◌^◌, ◌≤◌, ◌<◌, length};
ghost use Rattle.paper.specs.Sets.{single};
ghost use Rattle.paper.specs.Sets as sets;

// The set of one lock, as a need.
pub(crate) fn only(k: u8) -> u64
    requires { k < 32 }
    ensures { result ≡ single k }
{
    1u64 << k
}

// A need without the lock k.
pub(crate) fn less(m: u64, k: u8) -> u64
    requires { k < 32 }
    ensures { m < 4294967296 → result ≡ sets.less m (single k) }
{
    m & !only(k)
}
