// The public face: the fifteen calls in the paper's order.
// The contract of each is that what it returns means what its definition says. Beside the functions of the calls'
// crates: what may not change, docs/CALLS.md names both.
#![tactic(auto)]

ghost use Rattle.engine.specs.Calls.{world};
ghost use Rattle.handler.specs.Calls as Call;
ghost use Rattle.handler.specs.Claims.{Claim};

// State, record and registers, and a frame.
pub use engine::state::{After, Record, State};
pub use frame::Frame;
pub use layout::check::MEMORY_MOST;
pub use registers::Registers;
pub use registers::kinds::{
    Gfc, Register, Rxbc, Rxesc, Rxfc, SectionRegister, Sidfc, Txbc, Txefc, Txesc, Xidam, Xidfc,
};
pub use ring::Ring;
pub use words::WordAddress;

// Refusals 20 to 30, and those of a start.
pub use engine::refusals::Refusal;
pub use layout::check::LayoutRefusal;

// What the calls give back, and what a request brings.
pub use choosing::asking::Chosen;
pub use element::{EventHeader, RxHeader, RxRead, TxHeader};
pub use filter::Reason;
pub use layout::sections::Section;
pub use overview::{Overview, RingStatus};
pub use receiving::receive::{AfterReceive, Received};
pub use requesting::requesting::AfterRequest;
pub use starting::Started;

// 1: starts, where the layout is legal, with an empty state and record.
pub fn start(
    old: State,
    recorded: Record,
    regs: Registers,
    mem: &[u32],
) -> Result<Started, LayoutRefusal>
    ensures { Claim (world old recorded mem.now) (Call.start regs) result }
{
    starting::start(old, recorded, regs, mem)
}

// 2: receives a frame: stores it where the filters send it, or loses or discards it.
pub fn receive(
    s: State,
    recorded: Record,
    mem: &mut [u32],
    f: Frame,
    bytes: &[u8],
    time: u16,
) -> Result<AfterReceive, Refusal>
    ensures { Claim (world s recorded mem.old) (Call.receive f bytes.now time)
        (result, mem.new) }
{
    receiving::receive::receive(s, recorded, mem, f, bytes, time)
}

// 3: reads the element at a held place of a FIFO.
pub fn read_fifo(
    s: State,
    recorded: Record,
    mem: &[u32],
    fifo: u32,
    place: u32,
    out: &mut [u8],
) -> Result<RxRead, Refusal>
    ensures { Claim (world s recorded mem.now) (Call.read_fifo fifo place out.old)
        (result, out.new) }
{
    taking::reading::read_fifo(s, recorded, mem, fifo, place, out)
}

// 4: releases all held up to and including a place of a FIFO.
pub fn acknowledge_fifo(
    s: State,
    recorded: Record,
    mem: &[u32],
    fifo: u32,
    place: u32,
) -> Result<State, Refusal>
    ensures { Claim (world s recorded mem.now) (Call.acknowledge_fifo fifo place) result }
{
    taking::releasing::acknowledge_fifo(s, recorded, mem, fifo, place)
}

// 5: reads an Rx buffer that holds new data.
pub fn read_buffer(
    s: State,
    recorded: Record,
    mem: &[u32],
    buffer: u32,
    out: &mut [u8],
) -> Result<RxRead, Refusal>
    ensures { Claim (world s recorded mem.now) (Call.read_buffer buffer out.old)
        (result, out.new) }
{
    taking::reading::read_buffer(s, recorded, mem, buffer, out)
}

// 6: releases an Rx buffer, so that a frame can be stored in it again.
pub fn release_buffer(
    s: State,
    recorded: Record,
    mem: &[u32],
    buffer: u32,
) -> Result<State, Refusal>
    ensures { Claim (world s recorded mem.now) (Call.release_buffer buffer) result }
{
    taking::releasing::release_buffer(s, recorded, mem, buffer)
}

// 7: requests a dedicated buffer.
pub fn request_dedicated(
    s: State,
    recorded: Record,
    mem: &mut [u32],
    buffer: u32,
    h: TxHeader,
    bytes: &[u8],
) -> Result<AfterRequest, Refusal>
    ensures { Claim (world s recorded mem.old) (Call.request_dedicated buffer h bytes.now)
        (result, mem.new) }
{
    requesting::requesting::request_dedicated(s, recorded, mem, buffer, h, bytes)
}

// 8: requests a buffer of the shared part.
pub fn request_shared(
    s: State,
    recorded: Record,
    mem: &mut [u32],
    h: TxHeader,
    bytes: &[u8],
) -> Result<AfterRequest, Refusal>
    ensures { Claim (world s recorded mem.old) (Call.request_shared h bytes.now)
        (result, mem.new) }
{
    requesting::requesting::request_shared(s, recorded, mem, h, bytes)
}

// 9: cancels the request of a buffer that is not in a shared FIFO.
pub fn cancel(s: State, recorded: Record, mem: &[u32], buffer: u32) -> Result<After, Refusal>
    ensures { Claim (world s recorded mem.now) (Call.cancel buffer) result }
{
    requesting::cancelling::cancel(s, recorded, mem, buffer)
}

// 10: tells which frame to send next, as it is sent.
pub fn ask_choice(
    s: State,
    recorded: Record,
    mem: &[u32],
    passive: bool,
    out: &mut [u8],
) -> Result<Option<Chosen>, Refusal>
    ensures { Claim (world s recorded mem.now) (Call.ask_choice passive out.old)
        (result, out.new) }
{
    choosing::asking::ask_choice(s, recorded, mem, passive, out)
}

// 11: the present choice was sent.
pub fn report_sent(
    s: State,
    recorded: Record,
    mem: &mut [u32],
    buffer: u32,
    passive: bool,
    time: u16,
) -> Result<After, Refusal>
    ensures { Claim (world s recorded mem.old) (Call.report_sent buffer passive time)
        (result, mem.new) }
{
    reporting::report::report_sent(s, recorded, mem, buffer, passive, time)
}

// 12: reads the event at a held place.
pub fn read_event(
    s: State,
    recorded: Record,
    mem: &[u32],
    place: u32,
) -> Result<EventHeader, Refusal>
    ensures { Claim (world s recorded mem.now) (Call.read_event place) result }
{
    events::read_event(s, recorded, mem, place)
}

// 13: releases all events held up to and including a place.
pub fn acknowledge_event(
    s: State,
    recorded: Record,
    mem: &[u32],
    place: u32,
) -> Result<State, Refusal>
    ensures { Claim (world s recorded mem.now) (Call.acknowledge_event place) result }
{
    events::acknowledge_event(s, recorded, mem, place)
}

// 14: clears the flags of a mask.
pub fn clear_flags(s: State, recorded: Record, mem: &[u32], mask: u32) -> Result<Record, Refusal>
    ensures { Claim (world s recorded mem.now) (Call.clear_flags mask) result }
{
    overview::clear_flags(s, recorded, mem, mask)
}

// 15: fills, oldest and put places, and how many Tx buffers are pending.
pub fn report_status(s: State, recorded: Record, mem: &[u32]) -> Result<Overview, Refusal>
    ensures { Claim (world s recorded mem.now) Call.report_status result }
{
    overview::report_status(s, recorded, mem)
}
