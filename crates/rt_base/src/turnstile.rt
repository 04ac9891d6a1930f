ghost use Rattle.std.specs.Prelude.{◌≡◌};

/// What a worker is told before its next event.
#[derive(Clone, Copy, Debug, PartialEq, Eq)]
pub enum Gate {
    /// Make the event.
    Go,
    /// Make no more events.
    Stop,
}

/// Is asked by each worker before each event.
pub trait Turnstile {
    /// Whether it may stop workers.
    ghost may_stop: { Self → Type 0 };

    /// Whether the worker of this task, which has made `done` events, goes on.
    fn pass(&self, task: u32, done: u32) -> Gate
        ensures stop { result ≡ Gate.Stop → may_stop self.now };
}

/// Lets each worker go on.
#[derive(Clone, Copy, Debug, PartialEq, Eq)]
pub struct AlwaysGo;

impl Turnstile for AlwaysGo {
    ghost may_stop = { λ _. ⊥ };

    fn pass(&self, _task: u32, _done: u32) -> Gate
        ensures { result ≡ Gate.Go }
    {
        Gate::Go
    }
}
