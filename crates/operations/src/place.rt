// Where a thread stands.
ghost use Rattle.std.specs.Prelude.{◌<◌};

// Its number, the slot of its newest frame, and that frame's next statement, within the limits of a run.
#[derive(Clone, Copy)]
pub struct Place {
    pub thread: usize,
    pub slot: usize,
    pub next: usize,
    pub ghost thread_low: { thread < 16 },
    pub ghost slot_low: { slot < 512 },
    pub ghost next_low: { next < 512 },
}
