// How often each kind of event and each answer came.
use rt_model::Event;

/// How often each kind of event came, and each answer, by their numbers.
#[derive(Clone, Copy, Debug)]
pub struct Seen {
    kinds: [u32; 25],
    answers: [u32; 10],
}

impl Seen {
    /// None came.
    pub const NONE: Seen = Seen {
        kinds: [0; 25],
        answers: [0; 10],
    };

    /// An event came.
    pub fn count(&mut self, e: &Event) {
        add(&mut self.kinds, e.kind as usize);
        if let Some(reply) = e.reply {
            add(&mut self.answers, reply as usize);
        }
    }

    /// How many kinds of events and answers never came.
    pub fn missing(&self) -> usize {
        zeros(&self.kinds).saturating_add(zeros(&self.answers))
    }
}

// One more of this number.
fn add(counts: &mut [u32], number: usize) {
    if let Some(count) = counts.get_mut(number) {
        *count = count.wrapping_add(1);
    }
}

// How many of these are 0.
fn zeros(counts: &[u32]) -> usize {
    counts.iter().filter(|count| **count == 0).count()
}
