// A picture's samples in short.
ghost use Rattle.std.specs.Prelude.{◌≡◌, ◌+◌, ◌*◌, ◌≤◌, ◌<◌, ◌^◌, max};

use lc_rated::Answer;

/// How many samples a picture has, the sum of the sizes of their cuts, and the greatest bound of all samples in any
/// channel.
#[derive(Clone, Copy, Debug, PartialEq, Eq)]
pub struct Summary {
    pub samples: u64,
    pub sizes: u64,
    pub largest: u128,
}

impl Summary {
    /// The summary of no samples.
    pub(crate) fn new() -> Summary
        ensures { result ≡ record { samples = 0; sizes = 0; largest = 0 } }
    {
        Summary {
            samples: 0,
            sizes: 0,
            largest: 0,
        }
    }

    /// Takes one sample more.
    pub(crate) fn take(&mut self, answer: &Answer)
        requires samples { self.old.samples < 2 ^ 32 }
        requires sizes { self.old.sizes ≤ 65536 * self.old.samples }
        requires size { answer.now.size ≤ 65536 }
        ensures samples { self.new.samples ≡ self.old.samples + 1 }
        ensures sizes { self.new.sizes ≡ self.old.sizes + answer.now.size }
        ensures largest { self.new.largest
            ≡ max self.old.largest (max answer.now.bound.r (max answer.now.bound.g answer.now.bound.b)) }
    {
        self.samples += 1;
        self.sizes += u64::from(answer.size);
        let bound = answer.bound;
        self.largest = self.largest.max(bound.r.max(bound.g.max(bound.b)));
    }
}
