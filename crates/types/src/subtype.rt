// The subtype test on the bytes of two types, which it does not ask to be types: what another crate calls must have an answer on all input.
ghost use Rattle.std.specs.Prelude.{◌≡◌};
ghost use Rattle.paper.specs.Types.{turned, sets_related};
ghost use Rattle.types.specs.Subtype.{way, same_byte, sets_at, Found, Related};

use crate::stated::{has_four, number_at};
use codes::TypeCode;

// How two types are held against each other: the same, the first below the second, or above it.
#[derive(Clone, Copy, Debug, PartialEq, Eq)]
pub enum Mode {
    Same,
    Below,
    Above,
}

// An argument goes the other way.
fn flip(m: Mode) -> Mode
    ensures { way result ≡ turned (way m) }
{
    match m {
        Mode::Same => Mode::Same,
        Mode::Below => Mode::Above,
        Mode::Above => Mode::Below,
    }
}

// Two lock sets.
fn inside(md: Mode, m: u32, n: u32) -> bool
    ensures { result ≡ sets_related (way md) m n }
{
    match md {
        Mode::Same => m == n,
        Mode::Below => m & n == m,
        Mode::Above => n & m == n,
    }
}

// Bytes and place stand side by side here and below: `related` takes them so, and its cycle would build `At { bytes: x, at: i + 1 }` for each `x, i + 1`.
// Two bytes, codes or names, each within its buffer.
#[tactic(auto, unfolding(crate::specs::Subtype::same_byte))]
fn same(x: &[u8], i: usize, y: &[u8], j: usize) -> bool
    ensures { result ≡ same_byte x.now i y.now j }
{
    i < x.len() && j < y.len() && x[i] == y[j]
}

// Two lock sets, each within its buffer.
#[tactic(auto, unfolding(crate::specs::Subtype::sets_at))]
fn sets(x: &[u8], i: usize, y: &[u8], j: usize, md: Mode) -> bool
    ensures { result ≡ sets_at (way md) x.now i y.now j }
{
    has_four(x, i) && has_four(y, j) && inside(md, number_at(x, i), number_at(y, j))
}

// The same, once the codes are found to be one: each part of the type in turn.
#[cycle(parts)]
fn parts_related(code: TypeCode, x: &[u8], i: usize, y: &[u8], j: usize, md: Mode) -> Option<usize>
    requires { Found code x.now i y.now j }
    ensures { Related x.now i y.now j (way md) result }
{
    match code {
        TypeCode::Unit | TypeCode::Int => Some(i + 1),
        TypeCode::Lock => same(x, i + 1, y, j + 1).then_some(i + 2),
        TypeCode::Ref => {
            if same(x, i + 1, y, j + 1) {
                related(x, i + 2, y, j + 2, Mode::Same)
            } else {
                None
            }
        }
        TypeCode::Function => {
            let p = related(x, i + 1, y, j + 1, flip(md))?;
            let q = j + (p - i);
            if sets(x, p, y, q, md) {
                related(x, p + 4, y, q + 4, md)
            } else {
                None
            }
        }
    }
}

// Whether the type at i of x is so related to the one at j of y, with all its parts: then the place after the first. Two codes that differ, and
// Unit and Int, which are most, need no walk; a byte that is no code is a type of its own.
#[cycle(parts)]
pub fn related(x: &[u8], i: usize, y: &[u8], j: usize, md: Mode) -> Option<usize>
    ensures { Related x.now i y.now j (way md) result }
{
    if !same(x, i, y, j) {
        return None;
    }
    let Ok(code) = TypeCode::try_from(x[i]) else {
        return Some(i + 1);
    };
    if let TypeCode::Unit | TypeCode::Int = code {
        return Some(i + 1);
    }
    parts_related(code, x, i, y, j, md)
}
