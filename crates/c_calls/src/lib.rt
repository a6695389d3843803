// The handler for C: every call on numbers and slices of words, under a name of its own, with a number for the Result:
// the C interface.
#![tactic(auto)]

ghost use Rattle.std.specs.Prelude.{◌≡◌, []};
ghost use Rattle.c_entering.specs.Entering.{returned, lent};
ghost use Rattle.c_entering.specs.EngineCalls.{never_started_call};
ghost use Rattle.c_calls.specs.Exported.{exported, start, receive, read_fifo, acknowledge_fifo, read_buffer};
ghost use Rattle.c_calls.specs.Exported.{release_buffer, request_dedicated, request_shared, cancel, ask_choice};
ghost use Rattle.c_calls.specs.Exported.{report_sent, read_event, acknowledge_event, clear_flags, report_status};

use c_answers::numbers::number_of;
use c_entering::engine_calls;
use c_receiving::{reads, receives, releases};
use c_requesting::{cancels, event_calls, requests};

// A state for which every call but a start answers 20.
pub fn cuongphemi_never_started(state: &mut [u32]) -> u32
    ensures { returned result (lent state.new [] [] [] [])
        ≡ never_started_call (lent state.old [] [] [] []) }
{
    number_of(engine_calls::never_started(state))
}

// Call 1, start.
pub fn cuongphemi_start(
    state: &mut [u32],
    recorded: &mut [u32],
    mem: &[u32],
    registers: &[u32],
    answer: &mut [u32],
) -> u32
    ensures { returned result
        (lent state.new recorded.new mem.now answer.new [])
        ≡ exported (lent state.old recorded.old mem.now answer.old [])
        (start registers.now) }
{
    number_of(engine_calls::start(state, recorded, mem, registers, answer))
}

// Call 2, receive.
pub fn cuongphemi_receive(
    state: &mut [u32],
    recorded: &mut [u32],
    mem: &mut [u32],
    frame: &[u32],
    bytes: &[u8],
    time: u16,
    answer: &mut [u32],
) -> u32
    ensures { returned result
        (lent state.new recorded.new mem.new answer.new [])
        ≡ exported (lent state.old recorded.old mem.old answer.old [])
        (receive frame.now bytes.now time) }
{
    number_of(receives::receive(state, recorded, mem, frame, bytes, time, answer))
}

// Call 3, read in a FIFO.
pub fn cuongphemi_read_fifo(
    state: &[u32],
    recorded: &[u32],
    mem: &[u32],
    fifo: u32,
    place: u32,
    out: &mut [u8],
    answer: &mut [u32],
) -> u32
    ensures { returned result
        (lent state.now recorded.now mem.now answer.new out.new)
        ≡ exported
        (lent state.now recorded.now mem.now answer.old out.old)
        (read_fifo fifo place) }
{
    number_of(reads::read_fifo(state, recorded, mem, fifo, place, out, answer))
}

// Call 4, acknowledge in a FIFO.
pub fn cuongphemi_acknowledge_fifo(
    state: &mut [u32],
    recorded: &[u32],
    mem: &[u32],
    fifo: u32,
    place: u32,
) -> u32
    ensures { returned result (lent state.new recorded.now mem.now [] [])
        ≡ exported (lent state.old recorded.now mem.now [] [])
        (acknowledge_fifo fifo place) }
{
    number_of(releases::acknowledge_fifo(state, recorded, mem, fifo, place))
}

// Call 5, read an Rx buffer.
pub fn cuongphemi_read_buffer(
    state: &[u32],
    recorded: &[u32],
    mem: &[u32],
    buffer: u32,
    out: &mut [u8],
    answer: &mut [u32],
) -> u32
    ensures { returned result
        (lent state.now recorded.now mem.now answer.new out.new)
        ≡ exported
        (lent state.now recorded.now mem.now answer.old out.old)
        (read_buffer buffer) }
{
    number_of(reads::read_buffer(state, recorded, mem, buffer, out, answer))
}

// Call 6, release an Rx buffer.
pub fn cuongphemi_release_buffer(
    state: &mut [u32],
    recorded: &[u32],
    mem: &[u32],
    buffer: u32,
) -> u32
    ensures { returned result (lent state.new recorded.now mem.now [] [])
        ≡ exported (lent state.old recorded.now mem.now [] [])
        (release_buffer buffer) }
{
    number_of(releases::release_buffer(state, recorded, mem, buffer))
}

// Call 7, request a dedicated buffer.
pub fn cuongphemi_request_dedicated(
    state: &mut [u32],
    recorded: &[u32],
    mem: &mut [u32],
    buffer: u32,
    frame: &[u32],
    bytes: &[u8],
    marker: u8,
    wish: u32,
    answer: &mut [u32],
) -> u32
    ensures { returned result
        (lent state.new recorded.now mem.new answer.new [])
        ≡ exported (lent state.old recorded.now mem.old answer.old [])
        (request_dedicated buffer frame.now bytes.now marker wish) }
{
    number_of(requests::request_dedicated(
        state, recorded, mem, buffer, frame, bytes, marker, wish, answer,
    ))
}

// Call 8, request the shared part.
pub fn cuongphemi_request_shared(
    state: &mut [u32],
    recorded: &[u32],
    mem: &mut [u32],
    frame: &[u32],
    bytes: &[u8],
    marker: u8,
    wish: u32,
    answer: &mut [u32],
) -> u32
    ensures { returned result
        (lent state.new recorded.now mem.new answer.new [])
        ≡ exported (lent state.old recorded.now mem.old answer.old [])
        (request_shared frame.now bytes.now marker wish) }
{
    number_of(requests::request_shared(state, recorded, mem, frame, bytes, marker, wish, answer))
}

// Call 9, cancel.
pub fn cuongphemi_cancel(state: &mut [u32], recorded: &mut [u32], mem: &[u32], buffer: u32) -> u32
    ensures { returned result (lent state.new recorded.new mem.now [] [])
        ≡ exported (lent state.old recorded.old mem.now [] []) (cancel buffer) }
{
    number_of(cancels::cancel(state, recorded, mem, buffer))
}

// Call 10, ask the choice.
pub fn cuongphemi_ask_choice(
    state: &[u32],
    recorded: &[u32],
    mem: &[u32],
    passive: u32,
    out: &mut [u8],
    answer: &mut [u32],
) -> u32
    ensures { returned result
        (lent state.now recorded.now mem.now answer.new out.new)
        ≡ exported
        (lent state.now recorded.now mem.now answer.old out.old)
        (ask_choice passive) }
{
    number_of(c_choosing::ask_choice(state, recorded, mem, passive, out, answer))
}

// Call 11, report sent.
pub fn cuongphemi_report_sent(
    state: &mut [u32],
    recorded: &mut [u32],
    mem: &mut [u32],
    buffer: u32,
    passive: u32,
    time: u16,
) -> u32
    ensures { returned result (lent state.new recorded.new mem.new [] [])
        ≡ exported (lent state.old recorded.old mem.old [] [])
        (report_sent buffer passive time) }
{
    number_of(c_choosing::report_sent(state, recorded, mem, buffer, passive, time))
}

// Call 12, read an event.
pub fn cuongphemi_read_event(
    state: &[u32],
    recorded: &[u32],
    mem: &[u32],
    place: u32,
    answer: &mut [u32],
) -> u32
    ensures { returned result
        (lent state.now recorded.now mem.now answer.new [])
        ≡ exported (lent state.now recorded.now mem.now answer.old [])
        (read_event place) }
{
    number_of(event_calls::read_event(state, recorded, mem, place, answer))
}

// Call 13, acknowledge an event.
pub fn cuongphemi_acknowledge_event(
    state: &mut [u32],
    recorded: &[u32],
    mem: &[u32],
    place: u32,
) -> u32
    ensures { returned result (lent state.new recorded.now mem.now [] [])
        ≡ exported (lent state.old recorded.now mem.now [] [])
        (acknowledge_event place) }
{
    number_of(event_calls::acknowledge_event(state, recorded, mem, place))
}

// Call 14, clear flags.
pub fn cuongphemi_clear_flags(state: &[u32], recorded: &mut [u32], mem: &[u32], mask: u32) -> u32
    ensures { returned result (lent state.now recorded.new mem.now [] [])
        ≡ exported (lent state.now recorded.old mem.now [] []) (clear_flags mask) }
{
    number_of(engine_calls::clear_flags(state, recorded, mem, mask))
}

// Call 15, report status.
pub fn cuongphemi_status(state: &[u32], recorded: &[u32], mem: &[u32], answer: &mut [u32]) -> u32
    ensures { returned result
        (lent state.now recorded.now mem.now answer.new [])
        ≡ exported (lent state.now recorded.now mem.now answer.old [])
        report_status }
{
    number_of(engine_calls::status(state, recorded, mem, answer))
}
