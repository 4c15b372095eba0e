// The whole image: its length, its version, one expression, and nothing after it.
ghost use Rattle.reading.specs.Contract.{ImageRead};

use crate::first::read_exp;
use crate::scope::Scope;
use answers::Refusal;

// Refusals in the order 2, 3, then one reading of the expression for 4 to 9; bytes left over are 6.
pub fn read_image(s: &[u8]) -> Result<usize, Refusal>
    ensures { ImageRead s.now result }
{
    if s.len() < 3 || 4096 < s.len() {
        return Err(Refusal::UntrueLength);
    }
    let follow = usize::from(u16::from_be_bytes([s[0], s[1]]));
    if follow + 2 != s.len() {
        return Err(Refusal::UntrueLength);
    }
    if s[2] != 1 {
        return Err(Refusal::OtherVersion);
    }
    let whole = Scope {
        vars: 0,
        locks: 0,
        left: 64,
    };
    let p = read_exp(s, 3, whole)?;
    if p == s.len() {
        Ok(p)
    } else {
        Err(Refusal::LeftOver(p))
    }
}
