// The shared part: the place that a request takes, and the ring after it.
ghost use Rattle.std.specs.Prelude.{◌≡◌};
ghost use Rattle.registers.specs.Fields.{shared};
ghost use Rattle.requesting.specs.Needs.{QueueFits, CanFindPlace, SharedRoom};
ghost use Rattle.requesting.specs.Places.{below, queue_place, fifo_place, free_place, shared_after};

use engine::state::State;
use ring::{Circle, Ring};
use words::bits;

// A queue's lowest-numbered buffer that is not pending: the trailing zeros of the complemented pending word.
#[tactic(auto, using(crate::proofs::Places::lowest_place))]
fn queue_place(pending: u32, dedicated: u32, shared: u32) -> Option<u32>
    requires { QueueFits pending dedicated shared }
    ensures { result ≡ below shared (queue_place pending dedicated shared) }
{
    // With no shared buffer, all 32 may be dedicated.
    if shared == 0 {
        return None;
    }
    let place = bits::lowest_clear(pending >> dedicated);
    (place < shared).then_some(place)
}

// A FIFO's put place while it is not full.
#[tactic(auto, using(crate::proofs::Places::put_below), unfolding(crate::specs::Places::fifo_place))]
fn fifo_place(q: Circle) -> Option<u32>
    ensures { result ≡ below q.size (fifo_place q.ring q.size) }
{
    if q.ring.fill < q.size {
        Some(q.put_place())
    } else {
        None
    }
}

// The place in the shared part that a request takes, if one is free.
#[tactic(auto, using(crate::proofs::Places::queue_fits), unfolding(crate::specs::Places::free_place, engine::specs::Fitness::shared_ring_size))]
pub fn free_place(s: State) -> Option<u32>
    requires { CanFindPlace s }
    ensures { result ≡ below (shared s.regs) (free_place s) }
{
    if s.regs.is_queue() {
        queue_place(s.pending, s.regs.txbc.dedicated(), s.regs.txbc.shared())
    } else {
        fifo_place(s.shared_circle())
    }
}

// A queue has no ring: its pending bits say all.
#[tactic(auto, unfolding(engine::specs::Fitness::shared_ring_size))]
pub fn shared_after(s: State) -> Ring
    requires { SharedRoom s }
    ensures { result ≡ shared_after s }
{
    if s.regs.is_queue() {
        s.shared
    } else {
        s.shared_circle().push()
    }
}
