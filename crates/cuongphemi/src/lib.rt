// What C links: each function of the handler for C, and each step on the record in place, under the name and with the
// contract that it has in its own crate. Twice, for the C interface: a static library states what it exports again.
#![tactic(auto)]

ghost use Rattle.std.specs.Prelude.{◌≡◌, []};
ghost use Rattle.engine.specs.Flags.{cleared, with_priority};
ghost use Rattle.inplace.specs.Raising.{raised_mask};
ghost use Rattle.inplace.specs.Taking.{taken, without_flags};
ghost use Rattle.c_entering.specs.Entering.{returned, lent};
ghost use Rattle.c_entering.specs.EngineCalls.{never_started_call};
ghost use Rattle.c_calls.specs.Exported.{exported, start, receive, read_fifo, acknowledge_fifo, read_buffer};
ghost use Rattle.c_calls.specs.Exported.{release_buffer, request_dedicated, request_shared, cancel, ask_choice};
ghost use Rattle.c_calls.specs.Exported.{report_sent, read_event, acknowledge_event, clear_flags, report_status};

use engine::state::Record;

// A state for which every call but a start answers 20.
#[unsafe(no_mangle)]
pub extern "C" fn cuongphemi_never_started(state: &mut [u32]) -> u32
    ensures { returned result (lent state.new [] [] [] [])
        ≡ never_started_call (lent state.old [] [] [] []) }
{
    c_calls::cuongphemi_never_started(state)
}

// Call 1, start.
#[unsafe(no_mangle)]
pub extern "C" fn cuongphemi_start(
    state: &mut [u32],
    recorded: &mut [u32],
    mem: &[u32],
    registers: &[u32],
    answer: &mut [u32],
) -> u32
    ensures { returned result
        (lent state.new recorded.new mem.now answer.new [])
        ≡ exported (lent state.old recorded.old mem.now answer.old [])
        (start registers.now) }
{
    c_calls::cuongphemi_start(state, recorded, mem, registers, answer)
}

// Call 2, receive.
#[unsafe(no_mangle)]
pub extern "C" fn cuongphemi_receive(
    state: &mut [u32],
    recorded: &mut [u32],
    mem: &mut [u32],
    frame: &[u32],
    bytes: &[u8],
    time: u16,
    answer: &mut [u32],
) -> u32
    ensures { returned result
        (lent state.new recorded.new mem.new answer.new [])
        ≡ exported (lent state.old recorded.old mem.old answer.old [])
        (receive frame.now bytes.now time) }
{
    c_calls::cuongphemi_receive(state, recorded, mem, frame, bytes, time, answer)
}

// Call 3, read in a FIFO.
#[unsafe(no_mangle)]
pub extern "C" fn cuongphemi_read_fifo(
    state: &[u32],
    recorded: &[u32],
    mem: &[u32],
    fifo: u32,
    place: u32,
    out: &mut [u8],
    answer: &mut [u32],
) -> u32
    ensures { returned result
        (lent state.now recorded.now mem.now answer.new out.new)
        ≡ exported
        (lent state.now recorded.now mem.now answer.old out.old)
        (read_fifo fifo place) }
{
    c_calls::cuongphemi_read_fifo(state, recorded, mem, fifo, place, out, answer)
}

// Call 4, acknowledge in a FIFO.
#[unsafe(no_mangle)]
pub extern "C" fn cuongphemi_acknowledge_fifo(
    state: &mut [u32],
    recorded: &[u32],
    mem: &[u32],
    fifo: u32,
    place: u32,
) -> u32
    ensures { returned result (lent state.new recorded.now mem.now [] [])
        ≡ exported (lent state.old recorded.now mem.now [] [])
        (acknowledge_fifo fifo place) }
{
    c_calls::cuongphemi_acknowledge_fifo(state, recorded, mem, fifo, place)
}

// Call 5, read an Rx buffer.
#[unsafe(no_mangle)]
pub extern "C" fn cuongphemi_read_buffer(
    state: &[u32],
    recorded: &[u32],
    mem: &[u32],
    buffer: u32,
    out: &mut [u8],
    answer: &mut [u32],
) -> u32
    ensures { returned result
        (lent state.now recorded.now mem.now answer.new out.new)
        ≡ exported
        (lent state.now recorded.now mem.now answer.old out.old)
        (read_buffer buffer) }
{
    c_calls::cuongphemi_read_buffer(state, recorded, mem, buffer, out, answer)
}

// Call 6, release an Rx buffer.
#[unsafe(no_mangle)]
pub extern "C" fn cuongphemi_release_buffer(
    state: &mut [u32],
    recorded: &[u32],
    mem: &[u32],
    buffer: u32,
) -> u32
    ensures { returned result (lent state.new recorded.now mem.now [] [])
        ≡ exported (lent state.old recorded.now mem.now [] [])
        (release_buffer buffer) }
{
    c_calls::cuongphemi_release_buffer(state, recorded, mem, buffer)
}

// Call 7, request a dedicated buffer.
#[unsafe(no_mangle)]
pub extern "C" fn cuongphemi_request_dedicated(
    state: &mut [u32],
    recorded: &[u32],
    mem: &mut [u32],
    buffer: u32,
    frame: &[u32],
    bytes: &[u8],
    marker: u8,
    wish: u32,
    answer: &mut [u32],
) -> u32
    ensures { returned result
        (lent state.new recorded.now mem.new answer.new [])
        ≡ exported (lent state.old recorded.now mem.old answer.old [])
        (request_dedicated buffer frame.now bytes.now marker wish) }
{
    c_calls::cuongphemi_request_dedicated(
        state, recorded, mem, buffer, frame, bytes, marker, wish, answer,
    )
}

// Call 8, request the shared part.
#[unsafe(no_mangle)]
pub extern "C" fn cuongphemi_request_shared(
    state: &mut [u32],
    recorded: &[u32],
    mem: &mut [u32],
    frame: &[u32],
    bytes: &[u8],
    marker: u8,
    wish: u32,
    answer: &mut [u32],
) -> u32
    ensures { returned result
        (lent state.new recorded.now mem.new answer.new [])
        ≡ exported (lent state.old recorded.now mem.old answer.old [])
        (request_shared frame.now bytes.now marker wish) }
{
    c_calls::cuongphemi_request_shared(state, recorded, mem, frame, bytes, marker, wish, answer)
}

// Call 9, cancel.
#[unsafe(no_mangle)]
pub extern "C" fn cuongphemi_cancel(
    state: &mut [u32],
    recorded: &mut [u32],
    mem: &[u32],
    buffer: u32,
) -> u32
    ensures { returned result (lent state.new recorded.new mem.now [] [])
        ≡ exported (lent state.old recorded.old mem.now [] []) (cancel buffer) }
{
    c_calls::cuongphemi_cancel(state, recorded, mem, buffer)
}

// Call 10, ask the choice.
#[unsafe(no_mangle)]
pub extern "C" fn cuongphemi_ask_choice(
    state: &[u32],
    recorded: &[u32],
    mem: &[u32],
    passive: u32,
    out: &mut [u8],
    answer: &mut [u32],
) -> u32
    ensures { returned result
        (lent state.now recorded.now mem.now answer.new out.new)
        ≡ exported
        (lent state.now recorded.now mem.now answer.old out.old)
        (ask_choice passive) }
{
    c_calls::cuongphemi_ask_choice(state, recorded, mem, passive, out, answer)
}

// Call 11, report sent.
#[unsafe(no_mangle)]
pub extern "C" fn cuongphemi_report_sent(
    state: &mut [u32],
    recorded: &mut [u32],
    mem: &mut [u32],
    buffer: u32,
    passive: u32,
    time: u16,
) -> u32
    ensures { returned result (lent state.new recorded.new mem.new [] [])
        ≡ exported (lent state.old recorded.old mem.old [] [])
        (report_sent buffer passive time) }
{
    c_calls::cuongphemi_report_sent(state, recorded, mem, buffer, passive, time)
}

// Call 12, read an event.
#[unsafe(no_mangle)]
pub extern "C" fn cuongphemi_read_event(
    state: &[u32],
    recorded: &[u32],
    mem: &[u32],
    place: u32,
    answer: &mut [u32],
) -> u32
    ensures { returned result
        (lent state.now recorded.now mem.now answer.new [])
        ≡ exported (lent state.now recorded.now mem.now answer.old [])
        (read_event place) }
{
    c_calls::cuongphemi_read_event(state, recorded, mem, place, answer)
}

// Call 13, acknowledge an event.
#[unsafe(no_mangle)]
pub extern "C" fn cuongphemi_acknowledge_event(
    state: &mut [u32],
    recorded: &[u32],
    mem: &[u32],
    place: u32,
) -> u32
    ensures { returned result (lent state.new recorded.now mem.now [] [])
        ≡ exported (lent state.old recorded.now mem.now [] [])
        (acknowledge_event place) }
{
    c_calls::cuongphemi_acknowledge_event(state, recorded, mem, place)
}

// Call 14, clear flags.
#[unsafe(no_mangle)]
pub extern "C" fn cuongphemi_clear_flags(
    state: &[u32],
    recorded: &mut [u32],
    mem: &[u32],
    mask: u32,
) -> u32
    ensures { returned result (lent state.now recorded.new mem.now [] [])
        ≡ exported (lent state.now recorded.old mem.now [] []) (clear_flags mask) }
{
    c_calls::cuongphemi_clear_flags(state, recorded, mem, mask)
}

// Call 15, report status.
#[unsafe(no_mangle)]
pub extern "C" fn cuongphemi_status(
    state: &[u32],
    recorded: &[u32],
    mem: &[u32],
    answer: &mut [u32],
) -> u32
    ensures { returned result
        (lent state.now recorded.now mem.now answer.new [])
        ≡ exported (lent state.now recorded.now mem.now answer.old [])
        report_status }
{
    c_calls::cuongphemi_status(state, recorded, mem, answer)
}

// The flags of a mask are set in place; the priority stays.
#[unsafe(no_mangle)]
pub extern "C" fn cuongphemi_flags_raise(recorded: &mut Record, mask: u32)
    ensures { recorded.new ≡ raised_mask recorded.old mask }
{
    inplace::cuongphemi_flags_raise(recorded, mask);
}

// The flags of a mask are cleared in place; the priority stays.
#[unsafe(no_mangle)]
pub extern "C" fn cuongphemi_flags_clear(recorded: &mut Record, mask: u32)
    ensures { recorded.new ≡ cleared recorded.old mask }
{
    inplace::cuongphemi_flags_clear(recorded, mask);
}

// The priority word is replaced in place; the flags stay.
#[unsafe(no_mangle)]
pub extern "C" fn cuongphemi_priority_put(recorded: &mut Record, word: u32)
    ensures { recorded.new ≡ with_priority recorded.old word }
{
    inplace::cuongphemi_priority_put(recorded, word);
}

// Gives back the flags that were up, and clears them in place; the priority stays.
#[unsafe(no_mangle)]
pub extern "C" fn cuongphemi_flags_take(recorded: &mut Record) -> u32
    ensures { (result ≡ taken recorded.old)
        × (recorded.new ≡ without_flags recorded.old) }
{
    inplace::cuongphemi_flags_take(recorded)
}
