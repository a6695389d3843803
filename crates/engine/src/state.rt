// What the engine remembers between calls, and the record of flags and priority.
ghost use Rattle.std.specs.Prelude.{◌≡◌};
ghost use Rattle.ring.specs.Rings.{Fit};
ghost use Rattle.registers.specs.Fields.{fifo_size, event_size};
ghost use Rattle.engine.specs.Fitness.{shared_ring_size};
ghost use Rattle.engine.specs.States.{empty_state, never_started, no_flags, fifo_ring, with_fifo, with_events};

use crate::fitness::shared_ring_size;
use registers::Registers;
use ring::{Circle, Ring};

// Everything else is worked out from these. That it is fit is no invariant: what may not change, calls take any state
// and answer 20 (`judge_fit`); helpers ask for the part that they need.
#[derive(Clone, Copy)]
pub struct State {
    // the registers as given to the start
    pub regs: Registers,
    pub fifo0: Ring,
    pub fifo1: Ring,
    pub events: Ring,
    // of the shared Tx buffers, where they are a FIFO
    pub shared: Ring,
    // new-data bits of the Rx buffers
    pub newdata: u64,
    // bits of the Tx buffers; a buffer below 32 is asked where its bit is, and a type for that would be no plainer
    pub pending: u32,
    pub sent: u32,
    pub cancelled: u32,
}

#[repr(C)]
#[derive(Clone, Copy)]
pub struct Record {
    pub flags: u32,
    pub priority: u32,
}

// What a call leaves of both. Calls take the two apart, as the C interface lends them, since interrupt code changes
// the record in place; and the memory now as `&`, now as `&mut`.
#[derive(Clone, Copy)]
pub struct After {
    pub state: State,
    pub recorded: Record,
}

impl State {
    // What an accepted start gives.
    pub fn empty(regs: Registers) -> Self
        ensures { result ≡ empty_state regs }
    {
        let none = Ring::empty();
        Self {
            regs,
            fifo0: none,
            fifo1: none,
            events: none,
            shared: none,
            newdata: 0,
            pending: 0,
            sent: 0,
            cancelled: 0,
        }
    }

    // A state for which every call but a start answers 20: no start accepts its registers.
    pub fn never_started() -> Self
        ensures { result ≡ never_started }
    {
        State::empty(Registers::from_words(
            &[0, 0, 0, 0, 0, 0, 0, 0, 0, 0xffff_ffff, 0, 0],
            false,
            false,
            0,
        ))
    }

    // The ring of FIFO 0 or 1: a number, as in Registers, what may not change (`fifo_ring`).
    #[tactic(auto, unfolding(crate::specs::States::fifo_ring))]
    pub fn fifo_ring(self, fifo: u32) -> Ring
        ensures { result ≡ fifo_ring self fifo }
    {
        if fifo == 0 { self.fifo0 } else { self.fifo1 }
    }

    #[tactic(auto, unfolding(crate::specs::States::with_fifo))]
    pub fn with_fifo(self, fifo: u32, next: Ring) -> State
        ensures { result ≡ with_fifo self fifo next }
    {
        if fifo == 0 {
            State {
                fifo0: next,
                ..self
            }
        } else {
            State {
                fifo1: next,
                ..self
            }
        }
    }

    // The places of FIFO 0 or 1, of the event list, and of the shared Tx buffers where they are a FIFO.
    pub fn fifo_circle(self, fifo: u32) -> Circle
        requires { Fit (fifo_ring self fifo) (fifo_size self.regs fifo) }
        ensures ring { result.ring ≡ fifo_ring self fifo }
        ensures size { result.size ≡ fifo_size self.regs fifo }
    {
        Circle {
            ring: self.fifo_ring(fifo),
            size: self.regs.fifo(fifo).count(),
        }
    }

    pub fn event_circle(self) -> Circle
        requires { Fit self.events (event_size self.regs) }
        ensures ring { result.ring ≡ self.events }
        ensures size { result.size ≡ event_size self.regs }
    {
        Circle {
            ring: self.events,
            size: self.regs.txefc.count(),
        }
    }

    pub fn shared_circle(self) -> Circle
        requires { Fit self.shared (shared_ring_size self.regs) }
        ensures ring { result.ring ≡ self.shared }
        ensures size { result.size ≡ shared_ring_size self.regs }
    {
        Circle {
            ring: self.shared,
            size: shared_ring_size(self.regs),
        }
    }

    pub fn with_events(self, next: Ring) -> State
        ensures { result ≡ with_events self next }
    {
        State {
            events: next,
            ..self
        }
    }
}

impl Record {
    pub fn clean() -> Self
        ensures { result ≡ no_flags }
    {
        Self {
            flags: 0,
            priority: 0,
        }
    }
}
