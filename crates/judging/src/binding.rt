// Expressions without parts, and the variables that the others bind. A variable keeps its type as it was where it was bound, with the number
// of locks there: it is raised when it is looked up, so that going under a new lock changes no variable.
ghost use Rattle.std.specs.Prelude.{◌≡◌, ◌+◌, ◌-◌, get_or, Ok};
ghost use Rattle.judging.specs.Copies.{Ends};
ghost use Rattle.judging.specs.Contract.{Coded, FindsUnder, Entered, Bindable, Bound, Starts};

use crate::work::{Typed, slot_of, var_at};
use crate::{copies, shift};
use codes::TypeCode;
use reading::scope::Scope;

// A unit has the type Unit, and needs nothing.
pub(crate) fn unit(img: &[u8], at: usize, work: &mut [u8], scope: Scope) -> Typed
    requires { Coded img.now work.old at scope 1 }
    ensures { FindsUnder img.now work.old work.new at scope (Ok result) }
{
    work[slot_of(scope.left)] = TypeCode::Unit as u8;
    Typed {
        end: at + 1,
        need: 0,
    }
}

// A number has the type Int; its four bytes are passed over.
pub(crate) fn number(img: &[u8], at: usize, work: &mut [u8], scope: Scope) -> Typed
    requires { Coded img.now work.old at scope 2 }
    ensures { FindsUnder img.now work.old work.new at scope (Ok result) }
{
    work[slot_of(scope.left)] = TypeCode::Int as u8;
    Typed {
        end: at + 5,
        need: 0,
    }
}

// A variable's index counts from the innermost, and its type is raised by the locks that have come since.
pub(crate) fn variable(img: &[u8], at: usize, work: &mut [u8], scope: Scope) -> Typed
    requires { Coded img.now work.old at scope 3 }
    ensures { FindsUnder img.now work.old work.new at scope (Ok result) }
{
    let to = slot_of(scope.left);
    let index = img[at + 1];
    let from = var_at(scope.vars - 1 - index);
    let level = work[from + 256];
    copies::copy(work, from, to);
    shift::raise(work, to, scope.locks - level);
    Typed {
        end: at + 2,
        need: 0,
    }
}

// A function's argument; the place of the body, behind the stated type and the set. They have been read, so nothing is tested again.
pub(crate) fn argument(img: &[u8], at: usize, work: &mut [u8], scope: Scope) -> usize
    requires { Coded img.now work.old at scope 4 }
    ensures { Entered img.now work.old work.new at scope.vars scope.locks × Starts img.now at scope.vars scope.locks result × Ends img.now (at + 1) (result - 4) }
{
    let to = var_at(scope.vars);
    let p = copies::skip(img, at + 1);
    copies::copy_in(img, at + 1, p - (at + 1), work, to);
    work[to + 256] = scope.locks;
    p + 4
}

// The variable that is the new lock: it is bound under the lock, and its type is Lock of the innermost name.
pub(crate) fn new_name(img: &[u8], at: usize, work: &mut [u8], scope: Scope)
    requires { Coded img.now work.old at scope 10 }
    ensures { Entered img.now work.old work.new at scope.vars scope.locks }
{
    let to = var_at(scope.vars);
    work[to] = TypeCode::Lock as u8;
    work[to + 1] = 0;
    work[to + 256] = scope.locks + 1;
}

// Of a let, what the second part is under: the first part's type.
pub(crate) fn bind(img: &[u8], at: usize, work: &mut [u8], scope: Scope)
    requires { Bindable img.now work.old at scope.vars scope.locks scope.left × (get_or img.now at 0 ≡ 12) }
    ensures { Bound img.now work.old work.new at scope.vars scope.locks scope.left }
{
    let to = var_at(scope.vars);
    copies::copy(work, slot_of(scope.left - 1), to);
    work[to + 256] = scope.locks;
}
