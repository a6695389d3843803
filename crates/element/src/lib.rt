// Elements of the memory: a received frame, a frame to send, and an event, to words and back.
#![tactic(auto)]

pub mod memory;
pub mod pack;
pub mod unpack;

use frame::Frame;

// What a receive stores. The frame's bytes are lent beside it: what may not change, calls 2, 7 and 8 take them apart.
#[derive(Clone, Copy)]
pub struct Arrival {
    pub frame: Frame,
    // the timestamp
    pub time: u16,
    // the index of the filter that matched, if one did
    pub matched: Option<u32>,
}

// What stands in the first two words of an Rx element.
// The memory holds ANMF and the index apart, and calls 3 and 5 tell both as they stand: what may not change.
#[derive(Clone, Copy)]
pub struct RxHeader {
    pub frame: Frame,
    // no filter matched
    pub anmf: bool,
    // the index of the filter that matched
    pub index: u32,
    // the timestamp
    pub time: u32,
}

// What a read of an Rx element answers.
#[derive(Clone, Copy)]
pub struct RxRead {
    pub header: RxHeader,
    // how many bytes it wrote to the lent output: no heap
    pub count: u32,
}

// What a request brings, and what stands in the first two words of a Tx element. The frame's bytes are lent beside it.
// That the frame fits its fields is asked where it is packed and is no invariant, which would be no plainer: a request
// brings any frame, and it is judged first.
// The memory holds the marker and the wish apart, and call 10 tells both as they stand: what may not change.
#[derive(Clone, Copy)]
pub struct TxHeader {
    pub frame: Frame,
    pub marker: u8,
    // an event is wanted
    pub wish: bool,
}

// What is stored of a sent frame.
#[derive(Clone, Copy)]
pub struct Event {
    pub frame: Frame,
    pub marker: u8,
    // the timestamp
    pub time: u16,
}

// What stands in an event.
// Any of the four types may stand there, and call 12 tells it as it stands: what may not change.
#[derive(Clone, Copy)]
pub struct EventHeader {
    pub frame: Frame,
    pub marker: u32,
    // the event's type
    pub kind: u32,
    // the timestamp
    pub time: u32,
}
