// The connectors: one by one, and with one of them changed.
ghost use Rattle.std.specs.Prelude.{◌≡◌, ◌<◌};
ghost use Rattle.words.specs.Bits.{with_bit};
ghost use Rattle.card.specs.Address.{connector_count};
ghost use Rattle.card.specs.Connectors.{kind_at, connector_at, with_kind, with_source, each, from_each};

use crate::card::{Connector, Connectors};
use crate::limits::{CONNECTORS, INPUT, OPEN_DRAIN, PUSH_PULL};

// The type of connector k. Push-pull is tested first, so that one in both words is push-pull.
#[tactic(auto, unfolding(crate::specs::Connectors::kind_at))]
pub fn kind_at(c: Connectors, k: u32) -> u8
    requires { k < connector_count }
    ensures { result ≡ kind_at c k }
{
    if words::bit(c.push_pull as u64, k) {
        return PUSH_PULL;
    }
    if words::bit(c.open_drain as u64, k) {
        OPEN_DRAIN
    } else {
        INPUT
    }
}

// Connector k.
#[tactic(auto, unfolding(crate::specs::Connectors::source_at))]
pub fn connector_at(c: Connectors, k: u32) -> Connector
    requires { k < connector_count }
    ensures { result ≡ connector_at c k }
{
    Connector {
        kind: kind_at(c, k),
        source: c.sources[k as usize],
    }
}

// A word with bit k made b.
fn with_bit(w: u16, k: u32, b: bool) -> u16
    requires { k < connector_count }
    ensures { result ≡ with_bit w k b }
{
    let one: u16 = 1;
    let lone = one << k;
    let set = w | lone;
    if b { set } else { set ^ lone }
}

// With another type, or another source, at k.
#[tactic(auto, unfolding(crate::specs::Connectors::with_kind))]
pub(crate) fn with_kind(c: Connectors, k: u32, kind: u8) -> Connectors
    requires { k < connector_count }
    ensures { result ≡ with_kind c k kind }
{
    Connectors {
        push_pull: with_bit(c.push_pull, k, kind == PUSH_PULL),
        open_drain: with_bit(c.open_drain, k, kind == OPEN_DRAIN),
        ..c
    }
}

#[tactic(auto, unfolding(crate::specs::Connectors::with_source))]
pub(crate) fn with_source(c: Connectors, k: u32, source: u8) -> Connectors
    requires { k < connector_count }
    ensures { result ≡ with_source c k source }
{
    let mut sources = c.sources;
    sources[k as usize] = source;
    Connectors { sources, ..c }
}

// All of them, one by one.
pub fn each_of(c: Connectors) -> [Connector; CONNECTORS]
    ensures { result ≡ each c }
{
    let none = Connector {
        kind: INPUT,
        source: 0,
    };
    let mut all = [none; CONNECTORS];
    for k in 0..CONNECTORS as u32 {
        all[k as usize] = connector_at(c, k);
    }
    all
}

// The connectors of a card, from one by one.
pub fn from_each(all: [Connector; CONNECTORS]) -> Connectors
    ensures { result ≡ from_each all }
{
    let mut sources = [0; CONNECTORS];
    let mut push: u64 = 0;
    let mut drain: u64 = 0;
    for k in 0..CONNECTORS as u32 {
        let c = all[k as usize];
        sources[k as usize] = c.source;
        push = words::pushed(push, k, c.kind == PUSH_PULL);
        drain = words::pushed(drain, k, c.kind == OPEN_DRAIN);
    }
    Connectors {
        sources,
        push_pull: push as u16,
        open_drain: drain as u16,
    }
}
