//! The generator, and what it draws.

ghost use Rattle.std.specs.Prelude.{◌≡◌, ◌<◌, ◌≤◌, ◌^◌, true, IfOk, OnOk, OnErr};
ghost use Rattle.std.specs.Prelude.{◌%◌, ◌/◌, ◌∷◌, []};
ghost use Rattle.mb_schedule.specs.declared.schedule.WorldEvent.TheVariants.{StampPrepare};
ghost use Rattle.mb_make.specs.Draws.{Generator, Represents, HasDrawn, seeded, stepped as behind_step, draw as drawing, drawn, ask as asking, detail as detail_of, choice as choice_of, chosen as choosing, skips, gives_next};

use mb_base::{Host, Items, NoMemory};
use mb_schedule::WorldEvent;
use std::alloc::Global;

/// What the linear congruence multiplies by.
const MULTIPLIER: u64 = 6_364_136_223_846_793_005;

/// What it adds.
const INCREMENT: u64 = 1_442_695_040_888_963_407;

/// The host that is faulty.
const FAULTY: Host = 2;

/// A generator of events. Each draw takes one step of a linear congruence.
#[derive(Clone, Copy, PartialEq, Eq)]
pub struct Maker {
    /// Where the linear congruence stands.
    x: u64,
    /// How many draws there were, modulo 65,536.
    number: u16,
    /// Whether there was a draw.
    started: bool,
    /// For hosts 0 and 1, the number of the message that is given next.
    cursors: [u64; 2],
}

impl Maker {
    /// The generator of a seed, before the first draw.
    pub fn new(seed: u64) -> Maker
        ensures { Represents result (seeded seed) }
    {
        Maker {
            x: seed,
            number: 0,
            started: false,
            cursors: [1, 1],
        }
    }

    /// The next event, where so many messages were made: one at least in every draw but the first. After `NoMemory` the generator is as it was.
    pub fn draw(&mut self, alloc: Global, pool: u64) -> Result<WorldEvent, NoMemory>
        requires limit { pool < 2 ^ 63 }
        requires some { self.old.started ≡ true → 1 ≤ pool }
        ensures drawn { IfOk result (HasDrawn (drawing pool) self.old self.new) }
        ensures kept { OnErr result (self.new ≡ self.old) }
    {
        let mut next = self.stepped();
        let event = if self.started {
            next.chosen(alloc, pool)?
        } else {
            next.ask(alloc)?
        };
        *self = next;
        Ok(event)
    }

    /// Behind one step of the linear congruence.
    fn stepped(&self) -> Maker
        ensures step { (g : Generator) → Represents self.now g → Represents result (behind_step g) }
        ensures started { result.started ≡ true }
    {
        Maker {
            x: self.x.wrapping_mul(MULTIPLIER).wrapping_add(INCREMENT),
            number: self.number.wrapping_add(1),
            started: true,
            cursors: self.cursors,
        }
    }

    /// Of 2^25 values, what an event is drawn with.
    fn detail(&self) -> u64
        ensures value { result ≡ self.now.x / 2 ^ 33 / 64 }
        ensures limit { result < 2 ^ 25 }
    {
        (self.x >> 33) / 64
    }

    /// The event that was chosen.
    fn chosen(&mut self, alloc: Global, pool: u64) -> Result<WorldEvent, NoMemory>
        requires limit { pool < 2 ^ 63 }
        requires some { 1 ≤ pool }
        ensures { IfOk result (HasDrawn (λ g. choosing pool g (choice_of g) (detail_of g)) self.old self.new) }
    {
        let detail = self.detail();
        let host = (detail % 3) as Host;
        match (self.x >> 33) % 64 {
            0 => Ok(WorldEvent::Patience { host }),
            1 | 2 => Ok(WorldEvent::Nudge { host }),
            3 => Ok(WorldEvent::Give {
                message: 1 + detail % pool,
                host: (detail / 64 % 2) as Host,
            }),
            4 => self.skip(alloc, pool),
            5 => stamp(alloc, 1 + detail % 8),
            6..=13 => self.ask(alloc),
            _ => self.give_next(alloc, pool),
        }
    }

    /// A client asks for PUT of a key of one byte, with the number of the draw as its value.
    fn ask(&self, alloc: Global) -> Result<WorldEvent, NoMemory>
        ensures { IfOk result (HasDrawn (λ g. drawn (asking g) g) self.now self.now) }
    {
        let detail = self.detail();
        let [high, low] = self.number.to_be_bytes();
        let op = [1, 1, (detail % 256) as u8, 0, 2, high, low];
        Ok(WorldEvent::Ask {
            client: (detail % 4) as u8,
            op: Items::from_vec(Vec::from_slice(alloc, op.as_slice())?),
        })
    }

    /// A host passes over its next message, and a client asks.
    fn skip(&mut self, alloc: Global, pool: u64) -> Result<WorldEvent, NoMemory>
        requires { pool < 2 ^ 63 }
        ensures { IfOk result (HasDrawn (λ g. skips pool g (detail_of g % 2)) self.old self.new) }
    {
        let host = (self.detail() % 2) as usize;
        if self.cursors[host] <= pool {
            self.cursors[host] += 1;
        }
        self.ask(alloc)
    }

    /// A host is given its next message. Where there is none, a client asks.
    fn give_next(&mut self, alloc: Global, pool: u64) -> Result<WorldEvent, NoMemory>
        requires { pool < 2 ^ 63 }
        ensures { IfOk result (HasDrawn (λ g. gives_next pool g (detail_of g % 2)) self.old self.new) }
    {
        let host = (self.detail() % 2) as usize;
        let message = self.cursors[host];
        if message > pool {
            return self.ask(alloc);
        }
        self.cursors[host] = message + 1;
        Ok(WorldEvent::Give {
            message,
            host: host as Host,
        })
    }
}

/// The faulty host stamps a PREPARE of the first message at a position of view 0.
fn stamp(alloc: Global, pos: u64) -> Result<WorldEvent, NoMemory>
    ensures { IfOk result (λ e. e ≡ StampPrepare 2 0 pos (1 ∷ [])) }
{
    let mut messages = Items::new(alloc);
    messages.push(1)?;
    Ok(WorldEvent::StampPrepare {
        host: FAULTY,
        view: 0,
        pos,
        messages,
    })
}
