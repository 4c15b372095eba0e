// Where the work buffer has what, and what the judging functions answer.
ghost use Rattle.std.specs.Prelude.{◌≡◌, ◌*◌, ◌≤◌};
ghost use Rattle.judging.specs.Work.{slot};

// What an expression comes to: the place after it and its need. Its type stands in the slot of the call. The need is a set of 32 locks, and has 64 bits
// so that an answer is whole words: of 32 bits it would be stored in halves and loaded whole, which costs 8 in a hundred of the judge's time.
#[derive(Clone, Copy, Debug, PartialEq, Eq)]
pub(crate) struct Typed {
    pub(crate) end: usize,
    pub(crate) need: u64,
}

// Where the type of a call with `left` left stands.
pub(crate) fn slot_of(left: u8) -> usize
    requires { left ≤ 64 }
    ensures { result ≡ slot left }
{
    37120 - 256 * usize::from(left)
}

// Where variable j stands.
pub(crate) fn var_at(j: u8) -> usize
    ensures { result ≡ 320 * j }
{
    320 * usize::from(j)
}
