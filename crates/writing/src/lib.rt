// Bytes into a lent buffer from an offset on, as far as there is room: what a step's expression, the erased bytes of a slot and every printed
// line are put together from. Each function answers the place after what it wrote, or None where not all of it fits; none asks anything of its
// caller.
#![tactic(auto)]

ghost use Rattle.std.specs.Prelude.{◌≡◌, ◌++◌, ◌<◌, length, min, take};
ghost use Rattle.paper.specs.Texts.{decimal, hex, hex_digit};
ghost use Rattle.writing.specs.Written.{Written};
ghost use Rattle.writing.specs.Digits.{ended};

// The lesser of two places or lengths.
pub fn least(a: usize, b: usize) -> usize
    ensures { result ≡ min a b }
{
    a.min(b)
}

// A loop, since `copy_from_slice` would make the archive for C need memmove.
fn copy(dst: &mut [u8], src: &[u8])
    requires { length dst.old ≡ length src.now }
    ensures { dst.new ≡ src.now }
{
    for (i, &b) in src.iter().enumerate() {
        dst[i] = b;
    }
}

// v into dst from `at` on.
pub fn fill(v: &[u8], dst: &mut [u8], at: usize) -> Option<usize>
    ensures { Written (take at dst.old ++ v.now) dst.old dst.new result }
{
    let from = at.min(dst.len());
    let n = v.len().min(dst.len() - from);
    copy(&mut dst[from..from + n], &v[..n]);
    if n < v.len() { None } else { Some(from + n) }
}

// v and w behind it.
pub fn fill_both(v: &[u8], w: &[u8], dst: &mut [u8], at: usize) -> Option<usize>
    ensures { Written (take at dst.old ++ (v.now ++ w.now)) dst.old dst.new result }
{
    let first = fill(v, dst, at)?;
    fill(w, dst, first)
}

// The digits of a number, the last one behind those of its tenth part.
fn digits(n: u64, dst: &mut [u8], at: usize) -> Option<usize>
    ensures { Written (take at dst.old ++ decimal n) dst.old dst.new result }
{
    let last = [b'0' + (n % 10) as u8];
    if n < 10 {
        return fill(&last, dst, at);
    }
    let next = digits(n / 10, dst, at)?;
    fill(&last, dst, next)
}

// A number in decimal and the byte that ends it.
pub fn number(n: u64, end: u8, dst: &mut [u8], at: usize) -> Option<usize>
    ensures { Written (take at dst.old ++ ended n end) dst.old dst.new result }
{
    let next = digits(n, dst, at)?;
    fill(&[end], dst, next)
}

// A hex digit, in capitals.
#[tactic(auto, unfolding(paper::specs::Texts::hex_digit))]
fn hex_digit(d: u8) -> u8
    requires { d < 16 }
    ensures { result ≡ hex_digit d }
{
    if d < 10 { b'0' + d } else { b'A' - 10 + d }
}

// Bytes as pairs of hex digits.
pub fn hex(bytes: &[u8], dst: &mut [u8], at: usize) -> Option<usize>
    ensures { Written (take at dst.old ++ hex bytes.now) dst.old dst.new result }
{
    let mut next = at.min(dst.len());
    for &b in bytes {
        next = fill(&[hex_digit(b / 16), hex_digit(b % 16)], dst, next)?;
    }
    Some(next)
}
