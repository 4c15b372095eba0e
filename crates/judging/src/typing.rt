// The typing: a function a rule, which calls the judge on the expression's parts from left to right, with what is left of the nesting falling at
// each call. The code is looked at once, and each rule is called from one place, so that the compiler takes it into the judge. a, b and c are what
// the parts come to. The rules with two parts differ in the test and in the last step, which are two of their five lines: one function for them, with
// closures for the two, would be no shorter.
// img, at, work and scope stay apart: img is lent to be read and work to be written, `skip` and `related` take now the one and now the other, and at
// and scope are others at each call, so that a struct of the four would be taken apart in each rule.
ghost use Rattle.judging.specs.Contract.{Coded, ReadyUnder, FindsUnder};

use crate::binding::{argument, bind, new_name, number, unit, variable};
use crate::copies;
use crate::first::{
    first_cell, first_due, first_fork, first_int, first_lam, first_lock, first_read,
};
use crate::scope::{bound, locked, part};
use crate::second::{
    after_third, second_add, second_app, second_cond, second_last, second_sync, second_write,
};
use crate::work::Typed;
use answers::Refusal;
use codes::{ExpCode, TypeCode};
use reading::scope::Scope;

// The body is under the argument.
#[cycle(rules)]
fn function(img: &[u8], at: usize, work: &mut [u8], scope: Scope) -> Result<Typed, Refusal>
    requires { Coded img.now work.old at scope 4 }
    ensures { FindsUnder img.now work.old work.new at scope result }
{
    let inner = bound(scope);
    let p = argument(img, at, work, scope);
    let a = judge(img, p, work, inner)?;
    first_lam(img, at, p, work, scope.left, a)
}

// The first part is a Function.
#[cycle(rules)]
fn apply(img: &[u8], at: usize, work: &mut [u8], scope: Scope) -> Result<Typed, Refusal>
    requires { Coded img.now work.old at scope 5 }
    ensures { FindsUnder img.now work.old work.new at scope result }
{
    let inner = part(scope);
    let a = judge(img, at + 1, work, inner)?;
    first_due(at + 1, work, scope.left, TypeCode::Function)?;
    let b = judge(img, a.end, work, inner)?;
    second_app(work, scope.left, a, b)
}

// The content stands behind the lock name and the stated type.
#[cycle(rules)]
fn new_cell(img: &[u8], at: usize, work: &mut [u8], scope: Scope) -> Result<Typed, Refusal>
    requires { Coded img.now work.old at scope 6 }
    ensures { FindsUnder img.now work.old work.new at scope result }
{
    let inner = part(scope);
    let p = copies::skip(img, at + 2);
    let a = judge(img, p, work, inner)?;
    first_cell(img, at, p, work, scope.left, a)
}

// Nothing is kept of the Ref but its content.
#[cycle(rules)]
fn read(img: &[u8], at: usize, work: &mut [u8], scope: Scope) -> Result<Typed, Refusal>
    requires { Coded img.now work.old at scope 7 }
    ensures { FindsUnder img.now work.old work.new at scope result }
{
    let inner = part(scope);
    let a = judge(img, at + 1, work, inner)?;
    first_read(at + 1, work, scope.left, a)
}

// The first part is a Ref.
#[cycle(rules)]
fn write(img: &[u8], at: usize, work: &mut [u8], scope: Scope) -> Result<Typed, Refusal>
    requires { Coded img.now work.old at scope 8 }
    ensures { FindsUnder img.now work.old work.new at scope result }
{
    let inner = part(scope);
    let a = judge(img, at + 1, work, inner)?;
    first_due(at + 1, work, scope.left, TypeCode::Ref)?;
    let b = judge(img, a.end, work, inner)?;
    second_write(work, scope.left, a, b)
}

// The type of the part is of no use: a fork gives Unit.
#[cycle(rules)]
fn fork(img: &[u8], at: usize, work: &mut [u8], scope: Scope) -> Result<Typed, Refusal>
    requires { Coded img.now work.old at scope 9 }
    ensures { FindsUnder img.now work.old work.new at scope result }
{
    let inner = part(scope);
    let a = judge(img, at + 1, work, inner)?;
    first_fork(at, work, scope.left, a)
}

// The body is under the new lock and under the variable that is it.
#[cycle(rules)]
fn new_lock(img: &[u8], at: usize, work: &mut [u8], scope: Scope) -> Result<Typed, Refusal>
    requires { Coded img.now work.old at scope 10 }
    ensures { FindsUnder img.now work.old work.new at scope result }
{
    new_name(img, at, work, scope);
    let inner = locked(scope);
    let a = judge(img, at + 1, work, inner)?;
    first_lock(at, work, scope.left, a)
}

// The first part is a Lock.
#[cycle(rules)]
fn section(img: &[u8], at: usize, work: &mut [u8], scope: Scope) -> Result<Typed, Refusal>
    requires { Coded img.now work.old at scope 11 }
    ensures { FindsUnder img.now work.old work.new at scope result }
{
    let inner = part(scope);
    let a = judge(img, at + 1, work, inner)?;
    first_due(at + 1, work, scope.left, TypeCode::Lock)?;
    let b = judge(img, a.end, work, inner)?;
    Ok(second_sync(work, scope.left, a, b))
}

// The second part is under the variable that has the first one's type.
#[cycle(rules)]
fn let_in(img: &[u8], at: usize, work: &mut [u8], scope: Scope) -> Result<Typed, Refusal>
    requires { Coded img.now work.old at scope 12 }
    ensures { FindsUnder img.now work.old work.new at scope result }
{
    let inner = part(scope);
    let a = judge(img, at + 1, work, inner)?;
    bind(img, at, work, scope);
    let b = judge(img, a.end, work, bound(scope))?;
    Ok(second_last(work, scope.left, a, b))
}

// Of the first part only the need is left.
#[cycle(rules)]
fn then(img: &[u8], at: usize, work: &mut [u8], scope: Scope) -> Result<Typed, Refusal>
    requires { Coded img.now work.old at scope 13 }
    ensures { FindsUnder img.now work.old work.new at scope result }
{
    let inner = part(scope);
    let a = judge(img, at + 1, work, inner)?;
    let b = judge(img, a.end, work, inner)?;
    Ok(second_last(work, scope.left, a, b))
}

// That the first part is an Int is told before the second is judged.
#[cycle(rules)]
fn add(img: &[u8], at: usize, work: &mut [u8], scope: Scope) -> Result<Typed, Refusal>
    requires { Coded img.now work.old at scope 14 }
    ensures { FindsUnder img.now work.old work.new at scope result }
{
    let inner = part(scope);
    let a = judge(img, at + 1, work, inner)?;
    first_int(at + 1, work, scope.left)?;
    let b = judge(img, a.end, work, inner)?;
    second_add(work, scope.left, a, b)
}

// The number and the two branches stand behind the stated type, which both branches are held against.
#[cycle(rules)]
fn conditional(img: &[u8], at: usize, work: &mut [u8], scope: Scope) -> Result<Typed, Refusal>
    requires { Coded img.now work.old at scope 15 }
    ensures { FindsUnder img.now work.old work.new at scope result }
{
    let inner = part(scope);
    let p = copies::skip(img, at + 1);
    let a = judge(img, p, work, inner)?;
    first_int(p, work, scope.left)?;
    let b = judge(img, a.end, work, inner)?;
    second_cond(img, at, a.end, work, scope.left)?;
    let c = judge(img, b.end, work, inner)?;
    after_third(img, at, b.end, work, scope.left, a.need | b.need, c)
}

// The expression at `at`, under `vars` variables and `locks` locks, with `left` of the nesting left.
#[tactic(auto, using(crate::proofs::typing::Rule::code_at))]
#[cycle(rules)]
pub(crate) fn judge(img: &[u8], at: usize, work: &mut [u8], scope: Scope) -> Result<Typed, Refusal>
    requires { ReadyUnder img.now work.old at scope }
    ensures { FindsUnder img.now work.old work.new at scope result }
{
    match ExpCode::try_from(img[at]) {
        Ok(ExpCode::Unit) => Ok(unit(img, at, work, scope)),
        Ok(ExpCode::Number) => Ok(number(img, at, work, scope)),
        Ok(ExpCode::Variable) => Ok(variable(img, at, work, scope)),
        Ok(ExpCode::Function) => function(img, at, work, scope),
        Ok(ExpCode::Apply) => apply(img, at, work, scope),
        Ok(ExpCode::NewCell) => new_cell(img, at, work, scope),
        Ok(ExpCode::Read) => read(img, at, work, scope),
        Ok(ExpCode::Write) => write(img, at, work, scope),
        Ok(ExpCode::Fork) => fork(img, at, work, scope),
        Ok(ExpCode::NewLock) => new_lock(img, at, work, scope),
        Ok(ExpCode::Section) => section(img, at, work, scope),
        Ok(ExpCode::Let) => let_in(img, at, work, scope),
        Ok(ExpCode::Then) => then(img, at, work, scope),
        Ok(ExpCode::Add) => add(img, at, work, scope),
        Ok(ExpCode::If) => conditional(img, at, work, scope),
        Err(_) => unreachable!(),
    }
}
