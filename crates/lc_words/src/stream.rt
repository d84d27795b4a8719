// A stream of words.
ghost use Rattle.std.specs.Prelude.{◌≡◌};
ghost use Rattle.lc_words.specs.Words.{after, stream_of, word_of};

use rand_core::utils::NextWord;
use rand_pcg::Lcg64Xsh32;
use std::marker::Model;

/// A stream of words of 32 bits: PCG XSH RR 64/32 (O'Neill), as `Lcg64Xsh32` of `rand_pcg` gives it.
#[derive(Drop)]
pub struct Stream {
    generator: Lcg64Xsh32,
}

impl Model for Stream {
    ghost use Rattle.rand_pcg.specs.Lcg.{Lcg};

    ghost Value = { Lcg };

    ghost view = { λ s. s.generator };
}

impl Stream {
    /// The stream of this number under a seed, before its first word.
    pub fn new(seed: u64, stream: u64) -> Stream
        ensures { result ≡ stream_of seed stream }
    {
        Stream {
            generator: Lcg64Xsh32::new(seed, stream),
        }
    }

    /// The next word.
    pub fn next_word(&mut self) -> u32
        ensures word { result ≡ word_of self.old 0 }
        ensures after { self.new ≡ after self.old 1 }
    {
        self.generator.next_word()
    }
}
