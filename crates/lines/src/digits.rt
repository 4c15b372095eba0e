// What the digits of a field spell: a decimal number, or bytes as pairs of hex digits in capitals.
ghost use Rattle.std.specs.Prelude.{◌+◌, ◌≤◌, ◌≡◌, true, length};
ghost use Rattle.std.proofs.Math.Seq.{paste};
ghost use Rattle.lines.specs.Digits.{Digit, all_digits, digit_of, number_of, pair_of, spelled, Hexed, Field};

// A number of 64 bits; leading zeros are taken.
#[tactic(auto, using(crate::specs::DigitLaws::number_ways))]
pub fn decimal(s: &[u8]) -> Option<usize>
    ensures { result ≡ number_of s.now }
{
    if s.is_empty() {
        return None;
    }
    let mut n: usize = 0;
    for b in s {
        let b'0'..=b'9' = *b else {
            return None;
        };
        n = n.checked_mul(10)?.checked_add(usize::from(*b - b'0'))?;
    }
    Some(n)
}

#[tactic(auto, using(crate::specs::DigitLaws::digit_ways))]
fn digit(b: u8) -> Option<u8>
    ensures { Digit b result }
{
    match b {
        b'0'..=b'9' => Some(b - b'0'),
        b'A'..=b'F' => Some(b - b'A' + 10),
        _ => None,
    }
}

fn all_digits(s: &[u8]) -> bool
    ensures { result ≡ all_digits s.now }
{
    s.iter().all(|b| digit(*b).is_some())
}

#[tactic(auto, using(crate::specs::DigitLaws::digit_value))]
fn pair(a: u8, b: u8) -> u8
    requires { (digit_of a ≤ 15) × (digit_of b ≤ 15) }
    ensures { result ≡ pair_of a b }
{
    16 * digit(a).unwrap() + digit(b).unwrap()
}

#[tactic(auto, using(crate::specs::DigitLaws::spell_ways))]
fn spell(s: &[u8], out: &mut [u8], n: usize)
    requires { (n + n ≡ length s.now) × (n ≤ length out.old) × (all_digits s.now ≡ true) }
    ensures { out.new ≡ paste out.old 0 (spelled s.now) n }
{
    for (i, two) in s.chunks_exact(2).enumerate() {
        out[i] = pair(two[0], two[1]);
    }
}

// Puts the bytes that s spells first into out, and answers how many. None where out is too short for them.
pub fn hex(s: &[u8], out: &mut [u8]) -> Option<usize>
    ensures { Hexed s.now out.old result out.new }
{
    let n = s.len() / 2;
    if s.len() % 2 == 0 && n <= out.len() && all_digits(s) {
        spell(s, out, n);
        Some(n)
    } else {
        None
    }
}

// The same of a field of a vector, where a dash stands for no bytes and an empty field is none.
pub fn bytes(s: &[u8], out: &mut [u8]) -> Option<usize>
    ensures { Field s.now out.old result out.new }
{
    match s {
        b"-" => Some(0),
        [] => None,
        _ => hex(s, out),
    }
}
