// The connectors in a tick: what each drives, and the level that it shows.
ghost use Rattle.std.specs.Prelude.{Bool, false, ◌≡◌, ℕ};
ghost use Rattle.words.specs.Bits.{bit_at};
ghost use Rattle.ticks.specs.Levels.{effective_sample, driven_word, pulled_word, levels_from, lines_of};
ghost use Rattle.ticks.specs.Reading.{reads};
ghost use Rattle.ticks.specs.Words.{ReadsAs};

use crate::view::quarters;
use card::card::Connectors;
use card::limits::BACKPLANE;
use cells::reading::{Quarters, read};

// The driven word of a tick, the lines of the backplane that it pulls low, and the levels.
#[derive(Clone, Copy, Debug, PartialEq, Eq)]
pub struct Lines {
    pub driven: u16,
    pub pulled: u16,
    pub levels: u16,
}

// What counts as sampled: the sample where something is attached; of the other lines those of the
// backplane are high.
pub fn effective(sample: u16, attached: u16) -> u16
    ensures { result ≡ effective_sample sample attached }
{
    BACKPLANE ^ ((sample ^ BACKPLANE) & attached)
}

// Whether an address is high. Address 0 never is, and is not read: an output that nothing feeds has
// it as its source.
fn is_high(q: &Quarters, source: u8) -> bool
    ensures { (f g : ℕ → Bool) → ReadsAs q.now f g → f 0 ≡ false → result ≡ reads f g source }
{
    if source == 0 {
        return false;
    }
    read(q, source)
}

// The driven word, from the outputs alone, the lowest first: `left` has those that are still to
// come.
fn driven_by(connectors: Connectors, now: u64, before: u64) -> u16
    requires { bit_at now 0 ≡ false }
    ensures { result ≡ driven_word (bit_at now) (bit_at before) connectors }
{
    let q = quarters(now, before);
    let sources = connectors.sources;
    let mut driven: u64 = 0;
    let mut left = connectors.push_pull | connectors.open_drain;
    while left != 0 {
        let k = u16::trailing_zeros(left);
        left = left & (left - 1);
        if is_high(&q, sources[k as usize]) {
            driven = words::with_set(driven, k);
        }
    }
    driven as u16
}

// The levels, all at once: push-pull connectors show what they drive, open-drain ones what both
// they and the sample have, the others the sample.
fn levels_from(push: u16, drain: u16, driven: u16, sample: u16) -> u16
    ensures { result ≡ levels_from push drain driven sample }
{
    (driven & (push | sample)) | (sample & ((push | drain) ^ 0xffff))
}

// The lines of the backplane that are pulled low: the outputs there that are driven low.
fn pulled_by(connectors: Connectors, driven: u16) -> u16
    ensures { result ≡ pulled_word connectors driven }
{
    BACKPLANE & ((connectors.push_pull | connectors.open_drain) & (driven ^ 0xffff))
}

// All words: the connectors are driven, and then show their levels. `now` and `before` are views,
// in which base 0 is low.
pub(crate) fn drive(connectors: Connectors, now: u64, before: u64, sample: u16) -> Lines
    requires { bit_at now 0 ≡ false }
    ensures { result ≡ lines_of (bit_at now) (bit_at before) connectors sample }
{
    let driven = driven_by(connectors, now, before);
    let pulled = pulled_by(connectors, driven);
    let levels = levels_from(connectors.push_pull, connectors.open_drain, driven, sample);
    Lines {
        driven,
        pulled,
        levels,
    }
}
