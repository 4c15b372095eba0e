// Zeros over lent bytes: what every buffer is left with after its use, and what stands behind the bytes in a slot. One function for all of them.
#![tactic(auto)]

ghost use Rattle.std.specs.Prelude.{◌≡◌, length, replicate};

pub fn clear(part: &mut [u8])
    ensures { part.new ≡ replicate (length part.old) 0 }
{
    part.fill(0);
}
