// The bytes of a type, from place to place; and the clearing of the work buffer.
ghost use Rattle.std.specs.Prelude.{◌≡◌, ◌+◌, ◌≤◌, length, get_or};
ghost use Rattle.codes.specs.Codes.{type_byte};
ghost use Rattle.judging.specs.Copies.{Movable, Moved, Copied, Some, Ends, Givable, Given};
ghost use Rattle.paper.specs.Calls.{zeroed};

use codes::TypeCode;

// The code of the type at `at`. No other byte stands there: the arm for one is Unit's, which is the default arm of each match, since a trap would be
// one more test at each code of a type.
#[inline(always)]
pub(crate) fn code_at(s: &[u8], at: usize) -> TypeCode
    requires { Some s.now at }
    ensures { type_byte result ≡ get_or s.now at 0 }
{
    match TypeCode::try_from(s[at]) {
        Ok(code) => code,
        Err(_) => TypeCode::Unit,
    }
}

// The place after the type at `at`. A Function's result stands behind its argument and its set, so it is enough to count the results that
// are still due.
pub(crate) fn skip(s: &[u8], at: usize) -> usize
    requires { Some s.now at }
    ensures { Ends s.now at result }
{
    let mut p = at;
    let mut due: usize = 0;
    loop {
        let end = match code_at(s, p) {
            TypeCode::Function => {
                due += 1;
                p += 1;
                continue;
            }
            TypeCode::Ref => {
                p += 2;
                continue;
            }
            TypeCode::Lock => p + 2,
            _ => p + 1,
        };
        if due == 0 {
            return end;
        }
        due -= 1;
        p = end + 4;
    }
}

// The type at `from`, moved to `to`: lower, or past the 256 bytes that it may have. Most types are one byte.
pub(crate) fn copy(w: &mut [u8], from: usize, to: usize)
    requires { Movable w.old from to }
    ensures { Moved w.old w.new from to }
{
    if matches!(code_at(w, from), TypeCode::Unit | TypeCode::Int) {
        w[to] = w[from];
        return;
    }
    let size = skip(w, from) - from;
    // Not `copy_within`: the archive for C would need memmove.
    for i in 0..size {
        w[to + i] = w[from + i];
    }
}

// n bytes of another buffer.
pub(crate) fn copy_in(s: &[u8], from: usize, n: usize, w: &mut [u8], to: usize)
    requires { (from + n ≤ length s.now) × (to + n ≤ length w.old) }
    ensures { Copied s.now from n w.old w.new to }
{
    // Not `copy_from_slice`: the archive for C would need memmove.
    for i in 0..n {
        w[to + i] = s[from + i];
    }
}

// The type at `at` to the front of another buffer; its length.
pub(crate) fn give(s: &[u8], at: usize, w: &mut [u8]) -> usize
    requires { Givable s.now at w.old }
    ensures { Given s.now at w.old w.new result }
{
    let size = skip(s, at) - at;
    let code = s[at]; // by itself: must-fail/unit_always.edit changes it alone
    w[0] = code;
    copy_in(s, at + 1, size - 1, w, 1);
    size
}

// The 40,960 bytes of a work buffer, zero.
pub(crate) fn clear(w: &mut [u8])
    requires { 40960 ≤ length w.old }
    ensures { w.new ≡ zeroed w.old }
{
    zeros::clear(&mut w[..40960]);
}
