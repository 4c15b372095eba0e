// The part that makes the step, where it has two parts of its own: the first stands behind the code, the second from `second` on to the end.
ghost use Rattle.std.specs.Prelude.{◌≤◌, length};
ghost use Rattle.machine.specs.Cuts.{Cut2};

#[derive(Clone, Copy)]
pub(crate) struct Parts<'a> {
    pub bytes: &'a [u8],
    pub second: usize,
    pub ghost cut: { Cut2 bytes.now 1 second (length bytes.now) },
    // A pass over it has room on the stack that is lent to a step.
    pub ghost short: { length bytes.now ≤ 2048 },
}
