// What an expression stands under: how many variables and locks are bound there, and how much of the nesting is left for it.
ghost use Rattle.std.specs.Prelude.{◌≡◌, ◌+◌, ◌-◌, ◌≤◌, ◌<◌};

#[derive(Clone, Copy, Debug, PartialEq, Eq)]
pub struct Scope {
    pub vars: u8,
    pub locks: u8,
    pub left: u8,
    pub ghost deep: { vars + left ≤ 64 },
    pub ghost few: { locks ≤ 32 },
}

impl Scope {
    // What a part stands under: the same, one deeper.
    #[inline]
    pub(crate) fn part(self) -> Scope
        requires { 0 < self.left }
        ensures { (result.vars ≡ self.vars) × (result.locks ≡ self.locks) × (result.left ≡ self.left - 1) }
    {
        Scope {
            vars: self.vars,
            locks: self.locks,
            left: self.left - 1,
        }
    }

    // A part in which one variable more is bound.
    #[inline]
    pub(crate) fn body(self) -> Scope
        requires { 0 < self.left }
        ensures { (result.vars ≡ self.vars + 1) × (result.locks ≡ self.locks) × (result.left ≡ self.left - 1) }
    {
        Scope {
            vars: self.vars + 1,
            locks: self.locks,
            left: self.left - 1,
        }
    }

    // A new lock's body, in which a variable and a lock more are bound.
    #[inline]
    pub(crate) fn locked(self) -> Scope
        requires { (0 < self.left) × (self.locks < 32) }
        ensures { (result.vars ≡ self.vars + 1) × (result.locks ≡ self.locks + 1) × (result.left ≡ self.left - 1) }
    {
        Scope {
            vars: self.vars + 1,
            locks: self.locks + 1,
            left: self.left - 1,
        }
    }
}
