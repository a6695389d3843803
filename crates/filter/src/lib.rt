// Where a received frame goes: by its kind's filter list, or by what becomes of frames that no filter matches.
#![tactic(auto)]

pub mod filters;
pub mod lists;
pub mod search;

ghost use Rattle.std.specs.Prelude.{◌≡◌, length};
ghost use Rattle.filter.specs.Needs.{ListsFit};
ghost use Rattle.filter.specs.Destination.{reason, meaning, remote_out, non_matching, unmatched, rx_buffer};
ghost use Rattle.filter.specs.Destination.{by_action, destination};

use crate::filters::FilterElement;
use crate::lists::FilterList;
use crate::search::Filters;
use frame::Frame;
use registers::Registers;
use registers::field::Field;

// Why a frame is discarded, in the order in which document 01 lists the reasons.
#[derive(Clone, Copy)]
pub enum Reason {
    Remote = 0,
    Reject = 1,
    NoMatch = 2,
    PriorityOnly = 3,
    Debug = 4,
    Misfiled = 5,
    Locked = 6,
}

impl From<Reason> for u32 {
    ghost from_gives = { λ why n. n ≡ reason why };

    fn from(why: Reason) -> u32 {
        why as u32
    }
}

// Where a frame goes, with the index of the element that matched it, if one did.
// FIFO 0 or 1 is a number, as calls 3 and 4 take it, and flags are worked out from it: an enum would be no plainer.
#[derive(Clone, Copy)]
pub enum Destination {
    // to FIFO 0 or 1, and whether with priority
    Fifo(u32, bool, Option<u32>),
    // to an Rx buffer, by the element of this index
    Buffer(u32, u32),
    Discarded(Reason, Option<u32>),
}

// Remote frames of this kind are out: RRFS or RRFE is 1.
fn remote_out(regs: Registers, xtd: bool) -> bool
    ensures { result ≡ remote_out regs xtd }
{
    if xtd {
        regs.gfc.rrfe()
    } else {
        regs.gfc.rrfs()
    }
}

// What becomes of frames that no filter matches: ANFS or ANFE.
fn non_matching(regs: Registers, xtd: bool) -> u32
    ensures { result ≡ non_matching regs xtd }
{
    if xtd {
        regs.gfc.anfe()
    } else {
        regs.gfc.anfs()
    }
}

// No element matches: by the register's number, which is read here alone, so that an enum would be no plainer.
#[tactic(auto, unfolding(crate::specs::Destination::unmatched))]
fn unmatched(anf: u32) -> Destination
    ensures { meaning result ≡ unmatched anf }
{
    match anf {
        0 => Destination::Fifo(0, false, None),
        1 => Destination::Fifo(1, false, None),
        _ => Destination::Discarded(Reason::NoMatch, None),
    }
}

// What ID2 says of action 7: whether it asks for debug, and the Rx buffer that it names.
const DEBUG: Field = Field { high: 10, low: 9 };

const BUFFER: Field = Field { high: 5, low: 0 };

// Action 7: to the Rx buffer that ID2 names, unless it asks for debug, no such buffer is there, or it holds new data.
#[tactic(auto, unfolding(crate::specs::Destination::rx_buffer))]
fn rx_buffer(id2: u32, buffers: u32, newdata: u64, i: u32) -> Destination
    ensures { meaning result ≡ rx_buffer id2 buffers newdata i }
{
    if DEBUG.of(id2) != 0 {
        return Destination::Discarded(Reason::Debug, Some(i));
    }
    let buffer = BUFFER.of(id2);
    if buffers <= buffer {
        return Destination::Discarded(Reason::Misfiled, Some(i));
    }
    if words::bits::test(newdata, buffer) {
        return Destination::Discarded(Reason::Locked, Some(i));
    }
    Destination::Buffer(buffer, i)
}

// By the action of element i, which is e, the first that matches. Action 0 never does.
// By the element's number: what may not change, ActionTells speaks of an element of any number.
#[tactic(auto, unfolding(crate::specs::Destination::by_action))]
fn by_action(e: FilterElement, buffers: u32, newdata: u64, i: u32) -> Destination
    ensures { meaning result ≡ by_action e.action e.id2 buffers newdata i }
{
    match e.action {
        1 => Destination::Fifo(0, false, Some(i)),
        2 => Destination::Fifo(1, false, Some(i)),
        3 => Destination::Discarded(Reason::Reject, Some(i)),
        4 => Destination::Discarded(Reason::PriorityOnly, Some(i)),
        5 => Destination::Fifo(0, true, Some(i)),
        6 => Destination::Fifo(1, true, Some(i)),
        _ => rx_buffer(e.id2, buffers, newdata, i),
    }
}

// Where a received frame goes, by the registers, the filters in the memory and the Rx buffers' new-data bits.
#[tactic(auto, unfolding(crate::specs::Destination::destination, crate::specs::Destination::by_search))]
pub fn destination_of(regs: Registers, mem: &[u32], f: Frame, newdata: u64) -> Destination
    requires { ListsFit regs (length mem.now) }
    ensures { meaning result ≡ destination regs mem.now f newdata }
{
    if f.rtr & remote_out(regs, f.xtd) {
        return Destination::Discarded(Reason::Remote, None);
    }
    let list = FilterList::of_kind(regs, f.xtd);
    let filters = Filters { mem, list };
    let Some(i) = filters.first_match(f.id) else {
        return unmatched(non_matching(regs, f.xtd));
    };
    by_action(filters.at(i), regs.buffers, newdata, i)
}
