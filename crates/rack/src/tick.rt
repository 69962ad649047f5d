// A tick of all cards of a row: what comes in with it, and what it gives.
ghost use Rattle.std.specs.Prelude.{ℕ, ◌≡◌, ◌≤◌, ◌<◌, false, length, replicate};
ghost use Rattle.std.proofs.lemmas.List.Edits.{sets};
ghost use Rattle.std.specs.Int.Bits.{bit_or};
ghost use Rattle.std.specs.List.{fold};
ghost use Rattle.card.specs.declared.card.Card.{Card};
ghost use Rattle.card.specs.Address.{cell_count, cells_for};
ghost use Rattle.rack.specs.Shared.{pulls};
ghost use Rattle.rack.specs.Rack;
ghost use Rattle.rack.specs.Rack.{any_large, idle_answer, row_ticks, cards_of, answers_of};
ghost use Rattle.rack.specs.Supply.{most_cards};

use crate::shared;
use crate::supply::MOST;
use card::card::Card;
use ticks::tick::Answer;
use ticks::view::Input;

// What comes in at the front of one card: the word sampled, and which of its lines have something
// attached.
#[repr(C)]
#[derive(Clone, Copy)]
pub struct Front {
    pub sample: u8,
    pub attached: u8,
}

// What comes in with a rack tick: the code of its clock, the word sampled at the backplane and what
// is attached there, and the fronts, one for each of `count` cards.
#[repr(C)]
#[derive(Clone, Copy)]
pub struct RackInput {
    pub code: u8,
    pub sample: u8,
    pub attached: u8,
    pub count: u8,
    pub fronts: [Front; MOST],
}

// What a rack tick gives: 0 or the number of its refusal, and the answers, those past the row idle.
#[repr(C)]
#[derive(Clone, Copy)]
pub struct RackTicked {
    pub k: u8,
    pub answers: [Answer; MOST],
}

// The answer of a card that did not tick.
pub(crate) const IDLE: Answer = Answer {
    ran: false,
    driven: 0,
    cells: 0,
    woken: 0,
    count: 0,
};

impl RackInput {
    // What a card samples: its own front beside the backplane.
    fn for_card(self, at: usize) -> Input
        requires { at < most_cards }
        ensures { result ≡ Rack.input_for self at }
    {
        let front = self.fronts[at];
        Input {
            code: self.code,
            sample: u16::from(self.sample) * 256 + u16::from(front.sample),
            attached: u16::from(self.attached) * 256 + u16::from(front.attached),
        }
    }
}

// All drive: the lines that some card pulls low.
fn low_lines(row: &[Card], code: u8) -> u16
    ensures { result ≡ fold (λ (low : ℕ) (c : Card). bit_or low (pulls (cells_for c.size) code c)) 0 row.now }
{
    row.iter()
        .fold(0, |low, card| low | shared::pulled(*card, code))
}

// Then all sample, and then all work out their cells.
pub(crate) fn tick_all(row: &mut [Card], full: bool, input: RackInput) -> [Answer; MOST]
    requires few { length row.old ≤ most_cards }
    requires small { any_large row.old ≡ false }
    ensures answers { result
        ≡ sets (replicate most_cards idle_answer) 0
        (answers_of (row_ticks cell_count full input row.old)) }
    ensures row { row.new ≡ cards_of (row_ticks cell_count full input row.old) }
{
    let low = low_lines(row, input.code);
    let mut answers = [IDLE; MOST];
    for (at, card) in row.iter_mut().enumerate() {
        let t = shared::tick(full, *card, input.for_card(at), low);
        *card = t.card;
        answers[at] = t.answer;
    }
    answers
}
