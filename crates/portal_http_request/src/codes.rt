//! Makes codes from a seed.
ghost use Rattle.std.specs.Prelude.{◌≡◌, ◌+◌, ◌<◌, ◌≤◌, ◌^◌, IfOk, map};
ghost use Rattle.std.specs.List.{range_with_len};
ghost use Rattle.rand_chacha.specs.ChaCha.{word_at};
ghost use Rattle.portal_http_request.specs.Seeds.{codes_from_seed};

use portal_codes::{Code, LONG_WORDS};
use portal_model::lists::Codes;
use rand_chacha::ChaCha20Rng;
use rand_core::SeedableRng;
use rand_core::utils::NextWord;
use std::alloc::{AllocError, Global};

/// Draws the next words of the generator, as many as a long code needs.
fn next_words(rng: &mut ChaCha20Rng) -> [u32; LONG_WORDS]
    requires { rng.old.word_pos + 15 < 2 ^ 68 }
    ensures words { result ≡ map (λ i. word_at 10 rng.old.key rng.old.stream (rng.old.word_pos + i))
        (range_with_len 0 15) }
    ensures after { rng.new ≡ record rng.old { word_pos = rng.old.word_pos + 15 } }
{
    let mut words = [0; LONG_WORDS];
    for i in 0..LONG_WORDS {
        words[i] = rng.next_word();
    }
    words
}

/// Makes the first `count` codes of a seed, at most 500.
///
/// A code of sixteen characters is made of fifteen words of ChaCha20 with the seed as its key (the block
/// function of RFC 8439, with a 64-bit counter and nonce), stream 0, from place 0 on. Two of the codes may
/// be equal. The only error is out of memory.
pub fn codes_from_seed(alloc: Global, seed: [u8; 32], count: usize) -> Result<Codes, AllocError>
    requires { count ≤ 500 }
    ensures { IfOk result (λ codes. codes ≡ codes_from_seed seed count) }
{
    let mut rng = ChaCha20Rng::from_seed(seed);
    let mut codes = Codes::new(alloc);
    for _place in 0..count {
        let words = next_words(&mut rng);
        codes.push(Code::from_words_long(&words))?;
    }
    Ok(codes)
}
