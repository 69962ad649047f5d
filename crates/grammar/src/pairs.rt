// The pairs of CCB: a blank, a letter, `=` and a number, as often as the line has them.
ghost use Rattle.std.specs.Prelude.{◌≡◌, ◌+◌, ◌≤◌, length, IfSome};
ghost use Rattle.grammar.specs.Grammar;
ghost use Rattle.grammar.specs.Grammar.{longest_line, pair_read, pairs_of};

use crate::grammar::{Pairs, Reading, Slot, char_at, number_from, slot_of};
use card::limits::Number;
use cells::table::Slots;

impl Pairs {
    // The number given for a slot.
    fn get(self, slot: Slot) -> Option<Number>
        ensures { result ≡ Grammar.pair_of self slot }
    {
        match slot {
            Slot::X => self.x,
            Slot::Y => self.y,
            Slot::Z => self.z,
            Slot::F => self.f,
        }
    }

    // These pairs, with a slot given.
    fn with(self, slot: Slot, v: Number) -> Pairs
        ensures { result ≡ Grammar.give self slot v }
    {
        match slot {
            Slot::X => Pairs { x: Some(v), ..self },
            Slot::Y => Pairs { y: Some(v), ..self },
            Slot::Z => Pairs { z: Some(v), ..self },
            Slot::F => Pairs { f: Some(v), ..self },
        }
    }

    // The slots that are given.
    pub fn given(self) -> Slots
        ensures { result ≡ Grammar.given self }
    {
        Slots {
            x: self.x.is_some(),
            y: self.y.is_some(),
            z: self.z.is_some(),
            f: self.f.is_some(),
        }
    }
}

// One pair more, where the line goes on: a blank, a letter not given before, `=` and a number.
#[tactic(auto, using(crate::proofs::Words::next_within), unfolding(crate::specs::Grammar::pair_read))]
fn read_pair(text: &[u8], r: Reading) -> Option<Reading>
    requires at_bound { r.at ≤ longest_line + 3 }
    requires text_len_bound { length text.now ≤ longest_line }
    ensures value { result ≡ pair_read text.now r }
    ensures within { IfSome result (λ next. next.at ≤ longest_line + 3) }
{
    if text.len() <= r.at {
        return Some(r);
    }
    let slot = slot_of(char_at(text, r.at + 1))?;
    let number = number_from(text, r.at + 3);
    let value = number.value?;
    let framed = (char_at(text, r.at) == b' ') & (char_at(text, r.at + 2) == b'=');
    if !framed | r.pairs.get(slot).is_some() {
        return None;
    }
    Some(Reading {
        pairs: r.pairs.with(slot, value),
        at: number.next,
    })
}

// All pairs from a place to the end of the line, which is no longer than a line may be. There are
// four letters, so four steps are enough.
#[tactic(auto, unfolding(crate::specs::Grammar::pairs_of, crate::specs::Grammar::steps))]
pub fn all_pairs(text: &[u8], at: usize) -> Option<Pairs>
    requires at_le_longest_line { at ≤ longest_line }
    requires text_len_bound { length text.now ≤ longest_line }
    ensures { result ≡ pairs_of text.now at }
{
    let start = Reading {
        pairs: Pairs {
            x: None,
            y: None,
            z: None,
            f: None,
        },
        at,
    };
    let one = read_pair(text, start)?;
    let two = read_pair(text, one)?;
    let three = read_pair(text, two)?;
    let r = read_pair(text, three)?;
    let given = r.pairs.given();
    let any = (given.x | given.y) | (given.z | given.f);
    ((r.at == text.len()) & any).then_some(r.pairs)
}
