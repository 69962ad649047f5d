// One card that shares its backplane with others.
ghost use Rattle.std.specs.Prelude.{◌≡◌};
ghost use Rattle.card.specs.Address.{cells_for};
ghost use Rattle.rack.specs.Shared.{pulls, shared_levels, shared_tick};

use card::card::Card;
use card::limits::{BACKPLANE, FRONT_WORD};
use ticks::connectors::{Lines, effective};
use ticks::tick::{Ticked, full_tick_on, idle, lines_of, quick_tick_on};
use ticks::view::Input;

// The backplane lines that a card pulls low in a tick of a clock.
pub(crate) fn pulled(card: Card, code: u8) -> u16
    ensures { result ≡ pulls (cells_for card.size) code card }
{
    if code != card.trigger {
        return card.memory.pulled;
    }
    let nothing = Input {
        code,
        sample: 0,
        attached: 0,
    };
    lines_of(card, nothing).pulled
}

// The levels of a card whose own would be `own`: of the backplane what is sampled high and not
// pulled low.
fn levels_on(own: u16, sample: u16, low: u16) -> u16
    ensures { result ≡ shared_levels own sample low }
{
    (own & FRONT_WORD) | (sample & (BACKPLANE & (low ^ 0xffff)))
}

// A tick of either kind in which the lines of `low` are pulled low by some card.
pub(crate) fn tick(full: bool, card: Card, input: Input, low: u16) -> Ticked
    ensures { result ≡ shared_tick (cells_for card.size) full card input low }
{
    if input.code != card.trigger {
        return idle(card);
    }
    let own = lines_of(card, input);
    let sample = effective(input.sample, input.attached);
    let levels = levels_on(own.levels, sample, low);
    let lines = Lines { levels, ..own };
    if full {
        full_tick_on(card, lines)
    } else {
        quick_tick_on(card, lines)
    }
}
