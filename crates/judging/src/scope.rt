// What a part stands under, a level deeper than its expression: the same, or a variable more, or a variable and a lock more. It is written whole, since a
// struct with ghost facts takes no `..`; and in the caller, so that no rule makes a call more. The reading's methods of `Scope` ask that something is left, so they stay in that crate, as all that asks does.
ghost use Rattle.std.specs.Prelude.{◌≡◌, ◌+◌, ◌-◌, ◌<◌};

use reading::scope::Scope;

// The same.
#[inline(always)]
pub(crate) fn part(scope: Scope) -> Scope
    requires { 0 < scope.left }
    ensures { (result.vars ≡ scope.vars) × (result.locks ≡ scope.locks) × (result.left ≡ scope.left - 1) }
{
    Scope {
        vars: scope.vars,
        locks: scope.locks,
        left: scope.left - 1,
    }
}

// One variable more.
#[inline(always)]
pub(crate) fn bound(scope: Scope) -> Scope
    requires { 0 < scope.left }
    ensures { (result.vars ≡ scope.vars + 1) × (result.locks ≡ scope.locks) × (result.left ≡ scope.left - 1) }
{
    Scope {
        vars: scope.vars + 1,
        locks: scope.locks,
        left: scope.left - 1,
    }
}

// One variable and one lock more.
#[inline(always)]
pub(crate) fn locked(scope: Scope) -> Scope
    requires { (0 < scope.left) × (scope.locks < 32) }
    ensures { (result.vars ≡ scope.vars + 1) × (result.locks ≡ scope.locks + 1) × (result.left ≡ scope.left - 1) }
{
    Scope {
        vars: scope.vars + 1,
        locks: scope.locks + 1,
        left: scope.left - 1,
    }
}
