// The stack of what is open around an expression: one byte an entry. An expression takes no more entries than it has bytes, and any bytes no more
// than twice as many. The caller lends it.
ghost use Rattle.std.specs.Prelude.{◌≡◌, ◌∷◌, ◌+◌, ◌-◌, ◌<◌, length};
ghost use Rattle.slots.specs.Codes.{Told};
ghost use Rattle.slots.specs.Due.{due, ended as ended·of, after as after·of, push_of, stack_of, Room};
ghost use Rattle.slots.specs.Part.{Comes};

use crate::codes::{binds_first, binds_second, kids};

// The entries: a further part under the same binders, one under a binder more, and the end of a binder's scope. They are numbers and no enum: the
// stack is a lent buffer of bytes (a rule of the project).
const FURTHER: u8 = 0;

const BOUND: u8 = 1;

const SCOPE: u8 = 2;

// An expression to be read: d binders are around it, and sp entries are open.
#[derive(Clone, Copy, Debug, PartialEq, Eq)]
pub(crate) struct Part {
    pub(crate) d: usize,
    pub(crate) sp: usize,
}

// How many entries the code puts on the stack.
pub(crate) fn pushes(c: u8) -> usize
    ensures { Told (push_of c) 2 result }
{
    let k = kids(c);
    if k == 1 {
        return usize::from(binds_first(c));
    }
    k.saturating_sub(1)
}

// The expression has ended: what comes next, if anything does.
pub(crate) fn ended(stack: &mut [u8], part: Part) -> Option<Part>
    requires { Room stack.old part.sp part.d }
    ensures { Comes (ended·of part.d (stack_of stack.old part.sp)) part.sp (part.d + 1) result stack.new }
{
    let mut depth = part.d;
    for n in (0..part.sp).rev() {
        if stack[n] == FURTHER {
            return Some(Part { d: depth, sp: n });
        }
        if stack[n] == BOUND {
            stack[n] = SCOPE;
            return Some(Part {
                d: depth + 1,
                sp: n + 1,
            });
        }
        depth = depth.saturating_sub(1);
    }
    None
}

// One entry more, and the expression comes next.
fn push(stack: &mut [u8], part: Part, k: u8) -> Option<Part>
    requires { part.sp < length stack.old }
    ensures { Comes (due part.d (k ∷ stack_of stack.old part.sp)) (part.sp + 1) part.d result stack.new }
{
    stack[part.sp] = k;
    Some(Part {
        sp: part.sp + 1,
        ..part
    })
}

// The code c of the expression has been read: what comes next, if anything does.
pub(crate) fn after(stack: &mut [u8], part: Part, c: u8) -> Option<Part>
    requires { Room stack.old (part.sp + push_of c) part.d }
    ensures { Comes (after·of c part.d (stack_of stack.old part.sp)) (part.sp + push_of c) (part.d + 1) result stack.new }
{
    match kids(c) {
        0 => ended(stack, part),
        1 => {
            if !binds_first(c) {
                return Some(part);
            }
            let bound = Part {
                d: part.d + 1,
                ..part
            };
            push(stack, bound, SCOPE)
        }
        2 => {
            if !binds_second(c) {
                return push(stack, part, FURTHER);
            }
            push(stack, part, BOUND)
        }
        _ => {
            stack[part.sp] = FURTHER;
            let second = Part {
                sp: part.sp + 1,
                ..part
            };
            push(stack, second, FURTHER)
        }
    }
}
