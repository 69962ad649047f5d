// The commands that change the card: the rows of the refusal table that each can meet, lowest
// number first, and the change that it makes.
#![tactic(auto, using(crate::proofs::Decisions::place_fits, crate::proofs::Decisions::clock_fits, crate::proofs::Decisions::kind_fits, crate::proofs::Decisions::connector_fits, crate::proofs::Decisions::address_fits, crate::proofs::Decisions::slots_fit), unfolding(crate::specs::Line::decision, crate::specs::Line::change_for, crate::specs::Line::response_to, crate::specs::Refusal::refusal))]

ghost use Rattle.std.specs.Prelude.{◌≡◌, ◌<◌, IfSome};
ghost use Rattle.card.specs.Address.{cells_for};
ghost use Rattle.lines.specs.Refusal;
ghost use Rattle.lines.specs.Refusal.{any_too_large, any_bad_address};
ghost use Rattle.lines.specs.Line.{wire_of, decision};

use crate::decision::{Accepted, too_large, write};
use crate::refused::{Refused, refuse_if};
use card::change::{Change, Wires};
use card::context::Context;
use card::limits::Number;
use card::valid;
use grammar::grammar::{Command, Pairs};

// `M E=v`.
pub fn to_place(x: Context, v: Number) -> Result<Accepted, Refused>
    ensures { result ≡ decision (cells_for x.size) x 0 (Command.Move v) }
{
    refuse_if(too_large(v), Refused::TooLarge)?;
    refuse_if(valid::bad_place(v, x.size), Refused::BadPlace)?;
    Ok(write(Change::Pointer(v as u8)))
}

// `PM E=v`.
pub fn to_trigger(x: Context, v: Number) -> Result<Accepted, Refused>
    ensures { result ≡ decision (cells_for x.size) x 0 (Command.Trigger v) }
{
    refuse_if(too_large(v), Refused::TooLarge)?;
    refuse_if(valid::bad_clock(v), Refused::BadType)?;
    Ok(write(Change::Trigger(v as u8)))
}

// `36CCA X=v`. A preset that drives BNC1 while it is the trigger's input is 13.
pub fn to_preset(x: Context, v: Number) -> Result<Accepted, Refused>
    ensures { result ≡ decision (cells_for x.size) x 0 (Command.Preset v) }
{
    refuse_if(too_large(v), Refused::TooLarge)?;
    refuse_if(card::presets::bad_preset(v, x.size), Refused::BadPreset)?;
    refuse_if(card::context::preset_drives(x, v), Refused::FrontDriven)?;
    Ok(write(Change::Preset(v)))
}

// `36CCA Y=v`. At a connector 13 follows 7.
pub fn to_kind(x: Context, v: Number) -> Result<Accepted, Refused>
    ensures { result ≡ decision (cells_for x.size) x 0 (Command.SetKind v) }
{
    refuse_if(too_large(v), Refused::TooLarge)?;
    if x.at_cell {
        refuse_if(valid::bad_cell_type(v), Refused::BadType)?;
        return Ok(write(Change::Kind(v as u8)));
    }
    refuse_if(valid::bad_connector_type(v), Refused::BadType)?;
    refuse_if(card::context::drives_front(x, v), Refused::FrontDriven)?;
    Ok(write(Change::ConnectorKind(v as u8)))
}

// `36CCA Z=v`: the configuration of a cell, or the source of a connector.
pub fn to_config(x: Context, v: Number) -> Result<Accepted, Refused>
    ensures { result ≡ decision (cells_for x.size) x 0 (Command.SetConfig v) }
{
    refuse_if(too_large(v), Refused::TooLarge)?;
    if x.at_cell {
        refuse_if(valid::bad_config(x.cell.kind, v), Refused::BadConfig)?;
        return Ok(write(Change::Config(v as u32)));
    }
    refuse_if(valid::bad_address(v, x.size), Refused::BadAddress)?;
    Ok(write(Change::Source(v as u8)))
}

// `36CCA F=v`.
pub fn to_state(x: Context, v: Number) -> Result<Accepted, Refused>
    ensures { result ≡ decision (cells_for x.size) x 0 (Command.SetState v) }
{
    refuse_if(too_large(v), Refused::TooLarge)?;
    refuse_if(!x.at_cell, Refused::AtConnector)?;
    refuse_if(valid::bad_state(x.cell.kind, v), Refused::BadState)?;
    Ok(write(Change::State(v as u32)))
}

// Whether one of the numbers is too large.
fn any_too_large(p: Pairs) -> bool
    ensures { result ≡ any_too_large p }
{
    let large = p.x.is_some_and(too_large) | p.y.is_some_and(too_large);
    large | p.z.is_some_and(too_large) | p.f.is_some_and(too_large)
}

// Whether one of them is no address.
fn any_bad_address(p: Pairs, size: u8) -> bool
    ensures { result ≡ any_bad_address (cells_for size) p }
{
    let bad = valid::bad_addresses(
        p.x.unwrap_or(0),
        p.y.unwrap_or(0),
        p.z.unwrap_or(0),
        p.f.unwrap_or(0),
        size,
    );
    let given = p.given();
    ((given.x & bad.x) | (given.y & bad.y)) | ((given.z & bad.z) | (given.f & bad.f))
}

// The address of a slot, 0 where none is given.
fn wire(slot: Option<Number>) -> u8
    requires { IfSome slot (λ v. v < 256) }
    ensures { result ≡ wire_of slot }
{
    match slot {
        Some(v) => v as u8,
        None => 0,
    }
}

// `36CCB` and its pairs: all of them take effect, or none. 4 and 6 come before 10 and 11, whichever
// pair meets them.
pub fn to_slots(x: Context, p: Pairs) -> Result<Accepted, Refused>
    ensures { result ≡ decision (cells_for x.size) x 0 (Command.SetSlots p) }
{
    let given = p.given();
    let unused = valid::unused_slot(x.cell.kind, given);
    let bad = any_bad_address(p, x.size);
    refuse_if(any_too_large(p), Refused::TooLarge)?;
    refuse_if(!x.at_cell, Refused::AtConnector)?;
    refuse_if(unused, Refused::UnusedSlot)?;
    refuse_if(bad, Refused::BadAddress)?;
    Ok(write(Change::Slots(Wires {
        given,
        x: wire(p.x),
        y: wire(p.y),
        z: wire(p.z),
        f: wire(p.f),
    })))
}
