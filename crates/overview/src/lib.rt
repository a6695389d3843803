// Calls 14, clear flags, and 15, report status.
#![tactic(auto)]

ghost use Rattle.std.specs.Prelude.{◌≡◌};
ghost use Rattle.shape.specs.Calls.{settles};
ghost use Rattle.engine.specs.Answers.{saying, replied, left};
ghost use Rattle.engine.specs.Calls.{world};
ghost use Rattle.overview.specs.Overview.{clear_flags, ring_status, report_status};

use engine::fitness::judge_fit;
use engine::refusals::Refusal;
use engine::state::{Record, State};
use ring::Circle;
use words::bits;

// Clears the flags of a mask.
#[tactic(auto, unfolding(shape::specs::Calls::call, crate::specs::Overview::overview_refusals))]
pub fn clear_flags(s: State, recorded: Record, mem: &[u32], mask: u32) -> Result<Record, Refusal>
    ensures { settles (replied result) (world s (left (λ r. r) recorded result) mem.now)
        ≡ clear_flags (world s recorded mem.now) mask }
{
    judge_fit(s, recorded, mem.len())?;
    Ok(recorded.clear(mask))
}

// How a ring stands. The first place of a section, and of the shared part, is 0.
#[derive(Clone, Copy)]
pub struct RingStatus {
    pub fill: u32,
    pub oldest: u32,
    pub put: u32,
}

#[derive(Clone, Copy)]
pub struct Overview {
    pub fifo0: RingStatus,
    pub fifo1: RingStatus,
    pub events: RingStatus,
    pub shared: RingStatus,
    pub pending: u32,
}

fn ring_status(circle: Circle) -> RingStatus
    ensures { result ≡ ring_status circle.ring circle.size }
{
    RingStatus {
        fill: circle.ring.fill,
        oldest: circle.ring.oldest,
        put: circle.put_place(),
    }
}

// Fills, oldest and put places, and how many Tx buffers are pending.
#[tactic(auto, using(engine::proofs::Sounds::found), unfolding(shape::specs::Calls::call, engine::specs::States::fifo_ring, crate::specs::Overview::overview_refusals, crate::specs::Overview::status_of))]
pub fn report_status(s: State, recorded: Record, mem: &[u32]) -> Result<Overview, Refusal>
    ensures { settles (saying (λ o. o) result) (world s recorded mem.now)
        ≡ report_status (world s recorded mem.now) }
{
    judge_fit(s, recorded, mem.len())?;
    Ok(Overview {
        fifo0: ring_status(s.fifo_circle(0)),
        fifo1: ring_status(s.fifo_circle(1)),
        events: ring_status(s.event_circle()),
        shared: ring_status(s.shared_circle()),
        pending: bits::count_set(s.pending),
    })
}
