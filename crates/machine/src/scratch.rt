// What a step works in beside the state. It is lent to every step of a run, so that a run clears it once. Within a step its parts are lent one by
// one, since what stands in one is read while the others are written.

#[derive(Drop)]
pub(crate) struct Scratch {
    // A copy of the part that makes the step.
    pub old: [u8; 2048],
    // What that becomes.
    pub out: [u8; 2048],
    // The stack of a pass over it.
    pub stack: [u8; 4096],
}

impl Scratch {
    pub(crate) fn new() -> Scratch {
        Scratch {
            old: [0; 2048],
            out: [0; 2048],
            stack: [0; 4096],
        }
    }
}
