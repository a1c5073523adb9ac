ghost use Rattle.std.specs.Prelude.{◌≡◌};
ghost use Rattle.cnf_gen.specs.Draws.{word, after, seeded, is_odd};

use rand_core::SeedableRng;
use rand_core::utils::NextWord;
use rand_pcg::Pcg32;

/// The generator of a seed.
#[tactic(auto, unfolding(crate::specs::Draws::seeded))]
pub fn generator(seed: u64) -> Pcg32
    ensures { result ≡ seeded seed }
{
    Pcg32::seed_from_u64(seed)
}

/// The next word.
#[tactic(auto, unfolding(crate::specs::Draws::word, crate::specs::Draws::after))]
pub fn draw(rng: &mut Pcg32) -> u32
    ensures word { result ≡ word rng.old }
    ensures rest { rng.new ≡ after rng.old }
{
    rng.next_word()
}

/// Whether the lowest bit of a word is 1.
pub fn is_odd(word: u32) -> bool
    ensures { result ≡ is_odd word }
{
    word % 2 == 1
}
