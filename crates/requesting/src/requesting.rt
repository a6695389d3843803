// Calls 7 and 8, request a dedicated buffer and request the shared part.
ghost use Rattle.std.specs.Prelude.{◌≡◌, ◌<◌, length};
ghost use Rattle.shape.specs.Calls.{settles};
ghost use Rattle.element.specs.Fitting.{InFields};
ghost use Rattle.places.specs.Areas.{HasPlace};
ghost use Rattle.areas.specs.Areas.{tx_area};
ghost use Rattle.engine.specs.Answers.{saying, left};
ghost use Rattle.engine.specs.Calls.{world};
ghost use Rattle.requesting.specs.Needs.{Requestable};
ghost use Rattle.requesting.specs.Places.{requested};
ghost use Rattle.requesting.specs.Requesting.{written, request_dedicated, request_shared};

use crate::judging::{judge_dedicated, judge_shared};
use crate::sharing::shared_after;
use areas::{element_in, tx_area};
use element::TxHeader;
use engine::refusals::Refusal;
use engine::state::{Record, State};
use places::Area;
use ring::Ring;
use words::bits;

// The buffer that the request is in, and the state with it: its own struct, as AfterReceive.
#[derive(Clone, Copy)]
pub struct AfterRequest {
    pub buffer: u32,
    pub state: State,
}

// Writes a buffer's element whole.
#[tactic(auto, unfolding(crate::specs::Requesting::written))]
fn write_request(mem: &mut [u32], a: Area, buffer: u32, h: TxHeader, bytes: &[u8])
    requires { HasPlace a buffer (length mem.old) × InFields h.frame }
    ensures { mem.new ≡ written mem.old a buffer h bytes.now }
{
    element_in(a, buffer, mem.len()).store_tx(mem, h, bytes)
}

// The buffer is pending, and neither sent nor cancelled.
fn with_request(s: State, next: Ring, buffer: u32) -> State
    requires { buffer < 32 }
    ensures { result ≡ requested s next buffer }
{
    State {
        shared: next,
        pending: bits::set(s.pending, buffer),
        sent: bits::clear(s.sent, buffer),
        cancelled: bits::clear(s.cancelled, buffer),
        ..s
    }
}

// The request is in a buffer, with this ring of the shared part.
fn request_in(
    s: State,
    mem: &mut [u32],
    next: Ring,
    buffer: u32,
    h: TxHeader,
    bytes: &[u8],
) -> AfterRequest
    requires { Requestable s (length mem.old) buffer h }
    ensures { (result.buffer ≡ buffer)
        × (result.state ≡ requested s next buffer)
        × (mem.new ≡ written mem.old (tx_area s.regs) buffer h bytes.now) }
{
    write_request(mem, tx_area(s.regs), buffer, h, bytes);
    AfterRequest {
        buffer,
        state: with_request(s, next, buffer),
    }
}

// Requests a dedicated buffer.
#[tactic(auto, using(crate::proofs::Opens::dedicated_can), unfolding(shape::specs::Calls::call, crate::specs::Requesting::requests))]
pub fn request_dedicated(
    s: State,
    recorded: Record,
    mem: &mut [u32],
    buffer: u32,
    h: TxHeader,
    bytes: &[u8],
) -> Result<AfterRequest, Refusal>
    ensures { settles (saying (λ a. a.buffer) result)
        (world (left (λ a. a.state) s result) recorded mem.new)
        ≡ request_dedicated (world s recorded mem.old) buffer h bytes.now }
{
    judge_dedicated(s, recorded, mem, buffer, h, bytes.len())?;
    Ok(request_in(s, mem, s.shared, buffer, h, bytes))
}

// Requests the shared part.
#[tactic(auto, using(crate::proofs::Opens::shared_can, crate::proofs::Opens::shared_room), unfolding(shape::specs::Calls::call, crate::specs::Requesting::requests))]
pub fn request_shared(
    s: State,
    recorded: Record,
    mem: &mut [u32],
    h: TxHeader,
    bytes: &[u8],
) -> Result<AfterRequest, Refusal>
    ensures { settles (saying (λ a. a.buffer) result)
        (world (left (λ a. a.state) s result) recorded mem.new)
        ≡ request_shared (world s recorded mem.old) h bytes.now }
{
    let place = judge_shared(s, recorded, mem, h, bytes.len())?;
    let buffer = s.regs.txbc.dedicated() + place;
    Ok(request_in(s, mem, shared_after(s), buffer, h, bytes))
}
