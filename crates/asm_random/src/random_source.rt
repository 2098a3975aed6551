//! Numbers that are drawn.
ghost use Rattle.std.specs.Prelude.{◌≡◌, ◌<◌, ◌*◌, ◌/◌, ◌^◌, take};
ghost use Rattle.std.specs.Int.{from_be_bytes, w64};
ghost use Rattle.asm_random.specs.DrawnNumbers.{drawn_number};

use sha2::{Digest, Sha256};

/// What is drawn from: a run of the runs from a seed.
#[derive(Clone, Copy)]
pub(crate) struct RandomSource {
    pub(crate) seed: u64,
    /// The number of the run, from 0.
    pub(crate) run: u64,
}

impl RandomSource {
    /// The number of the candidate that the `choose` at this path takes in this step, of
    /// `candidates` candidates. It is the same on every machine: the first eight bytes of the
    /// SHA-256 of the seed, of the numbers of run and step, and of those of the path, each of them
    /// as eight bytes with the highest first, are a number that is cut down to the candidates, each
    /// of them as likely.
    pub(crate) fn candidate(self, step: u64, path: &[u64], candidates: u64) -> u64
        requires { 0 < candidates }
        ensures below { result < candidates }
        ensures drawn { result ≡ drawn_number self.seed self.run step path.now candidates }
    {
        let mut digest = Sha256::new();
        digest.update(&self.seed.to_be_bytes());
        digest.update(&self.run.to_be_bytes());
        digest.update(&step.to_be_bytes());
        for number in path {
            digest.update(&number.to_be_bytes());
        }
        scaled(eight_of(&digest.finalize()), candidates)
    }
}

/// The first eight bytes of a digest as a number, the first of them the highest.
fn eight_of(bytes: &[u8; 32]) -> u64
    ensures { result ≡ from_be_bytes w64 (take 8 bytes.now) }
{
    u64::from_be_bytes([
        bytes[0], bytes[1], bytes[2], bytes[3], bytes[4], bytes[5], bytes[6], bytes[7],
    ])
}

/// A number below another, as far along as one is among those of 64 bits.
fn scaled(number: u64, bound: u64) -> u64
    requires { 0 < bound }
    ensures below { result < bound }
    ensures scaled { result ≡ number * bound / 2 ^ 64 }
{
    let product = u128::from(number) * u128::from(bound);
    (product >> 64) as u64
}
