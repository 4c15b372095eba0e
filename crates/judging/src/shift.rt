// A type under new locks, and out from under one: every name and every set, in place.
ghost use Rattle.std.specs.Prelude.{◌≡◌, ◌+◌, ◌*◌, ◌^◌, ◌≤◌, ◌<◌, length};
ghost use Rattle.paper.specs.Base.{word32};
ghost use Rattle.judging.specs.Holds.{put};
ghost use Rattle.judging.specs.Shift.{Raisable, Raises, Lowerable, Lowers, LowerSet, LowerName};

use crate::copies::code_at;
use codes::TypeCode;
use types::stated::number_at;

// Four bytes, the highest first.
pub(crate) fn put4(s: &mut [u8], at: usize, m: u32)
    requires { at + 4 ≤ length s.old }
    ensures { s.new ≡ put s.old at m }
{
    s[at..at + 4].copy_from_slice(&m.to_be_bytes());
}

// A set, k names higher.
fn shifted(m: u32, k: u8) -> u32
    requires { (k ≤ 32) × (m * 2 ^ k < 4294967296) }
    ensures { result ≡ m * 2 ^ k }
{
    (u64::from(m) << k) as u32
}

// The set at `at`, k names higher.
fn raise_set(s: &mut [u8], at: usize, k: u8)
    requires { (at + 4 ≤ length s.old) × (k ≤ 32) × (word32 s.old at * 2 ^ k < 4294967296) }
    ensures { s.new ≡ put s.old at (word32 s.old at * 2 ^ k) }
{
    let m = number_at(s, at);
    put4(s, at, shifted(m, k));
}

// The type at `at`, k names higher, in place; the place after it.
pub(crate) fn raise(s: &mut [u8], at: usize, k: u8) -> usize
    requires { Raisable s.old at k }
    ensures { Raises s.old s.new at k result }
{
    match code_at(s, at) {
        TypeCode::Lock => {
            s[at + 1] += k;
            at + 2
        }
        TypeCode::Ref => {
            s[at + 1] += k;
            raise(s, at + 2, k)
        }
        TypeCode::Function => {
            let p = raise(s, at + 1, k);
            raise_set(s, p, k);
            raise(s, p + 4, k)
        }
        _ => at + 1,
    }
}

// The set at `at`, one name lower; None, and nothing done, where it has the innermost lock.
fn lower_set(s: &mut [u8], at: usize) -> Option<()>
    requires { at + 4 ≤ length s.old }
    ensures { LowerSet s.old s.new at result }
{
    let m = number_at(s, at);
    if m % 2 == 1 {
        return None;
    }
    put4(s, at, m / 2);
    Some(())
}

// The name at `at`, one lower; None, and nothing done, where it is the innermost lock.
fn lower_name(s: &mut [u8], at: usize) -> Option<()>
    requires { at < length s.old }
    ensures { LowerName s.old s.new at result }
{
    let a = s[at];
    if a == 0 {
        return None;
    }
    s[at] = a - 1;
    Some(())
}

// The type at `at`, one name lower, in place; the place after it. None where the type mentions the lock, and then only its own bytes have changed.
pub(crate) fn lower(s: &mut [u8], at: usize) -> Option<usize>
    requires { Lowerable s.old at }
    ensures { Lowers s.old s.new at result }
{
    match code_at(s, at) {
        TypeCode::Lock => {
            lower_name(s, at + 1)?;
            Some(at + 2)
        }
        TypeCode::Ref => {
            lower_name(s, at + 1)?;
            lower(s, at + 2)
        }
        TypeCode::Function => {
            let p = lower(s, at + 1)?;
            lower_set(s, p)?;
            lower(s, p + 4)
        }
        _ => Some(at + 1),
    }
}
