// Why the card says no: the refusals of document 01, and their numbers.
ghost use Rattle.std.specs.Prelude.{◌≡◌, OnOk, OnErr, IfErr, true, false};
ghost use Rattle.lines.specs.Refusal.{number_of, of_no_command};

use grammar::grammar::NoCommand;

// The lowest of these that applies to a line is its refusal. Reads meet them as writes do.
#[derive(Clone, Copy, PartialEq, Eq)]
pub enum Refused {
    // the reply has fewer than 16 bytes, or the store has no room for the record
    NoRoom = 1,
    // a line of another form or length
    NoForm = 2,
    // a card command for another card
    OtherCard = 3,
    // a number over the largest
    TooLarge = 4,
    // no place of the card
    BadPlace = 5,
    // the pointer is at a connector, and the command is of a cell
    AtConnector = 6,
    // no type, or no clock of the trigger
    BadType = 7,
    // no preset
    BadPreset = 8,
    // a configuration that the type does not have
    BadConfig = 9,
    // a slot that the type does not use
    UnusedSlot = 10,
    // no address
    BadAddress = 11,
    // a state that the type does not keep
    BadState = 12,
    // BNC1 would be driven while the trigger comes in by it
    FrontDriven = 13,
}

impl Refused {
    // The number that the reply gives.
    pub fn number(self) -> u8
        ensures { result ≡ number_of self }
    {
        self as u8
    }
}

impl From<NoCommand> for Refused {
    ghost from_gives = { λ e why. why ≡ of_no_command e };

    fn from(e: NoCommand) -> Refused {
        match e {
            NoCommand::Malformed => Refused::NoForm,
            NoCommand::Elsewhere => Refused::OtherCard,
        }
    }
}

// A test that a command has to pass.
pub(crate) fn refuse_if(test: bool, why: Refused) -> Result<(), Refused>
    ensures ok { OnOk result (test ≡ false) }
    ensures err { OnErr result (test ≡ true) }
    ensures reason { IfErr result (λ given. given ≡ why) }
{
    if test { Err(why) } else { Ok(()) }
}
