// A state, its registers and a record as words, and back: by functions and no `From`, which would be no plainer: it
// would stand in the crates below, which know of no C words.
ghost use Rattle.std.specs.Prelude.{◌≡◌, ◌+◌, ◌*◌, ◌^◌, ◌≤◌, ◌<◌, length};
ghost use Rattle.c_words.specs.Needs.{StateWords};
ghost use Rattle.c_words.specs.States.{register_words, state_words};
ghost use Rattle.c_words.specs.States.{plain_registers, unpack_registers, unpack_ring, unpack_state, pack_state};
ghost use Rattle.c_words.specs.States.{ComesBack};
ghost use Rattle.c_words.specs.States.{unpack_record, pack_record};

use crate::buffers::is_yes_no;
use engine::state::{Record, State};
use registers::Registers;
use ring::Ring;
use words::bit_of;

pub const REGISTER_WORDS: usize = 15;

pub const STATE_WORDS: usize = REGISTER_WORDS + 13;

pub const RECORD_WORDS: usize = 2;

// What follows the registers in a state, by its first word.
const FIFO0_AT: usize = REGISTER_WORDS;

const FIFO1_AT: usize = REGISTER_WORDS + 2;

const EVENTS_AT: usize = REGISTER_WORDS + 4;

const SHARED_AT: usize = REGISTER_WORDS + 6;

const NEW_DATA_LOW_AT: usize = REGISTER_WORDS + 8;

const NEW_DATA_HIGH_AT: usize = REGISTER_WORDS + 9;

const PENDING_AT: usize = REGISTER_WORDS + 10;

const SENT_AT: usize = REGISTER_WORDS + 11;

const CANCELLED_AT: usize = REGISTER_WORDS + 12;

// The two words that say yes or no are 0 or 1.
pub fn is_plain_registers(words: &[u32]) -> bool
    ensures { result ≡ plain_registers words.now }
{
    is_yes_no(words, 12) && is_yes_no(words, 13)
}

pub fn take_registers(words: &[u32]) -> Registers
    requires { register_words ≤ length words.now }
    ensures { result ≡ unpack_registers words.now }
{
    Registers::from_words(words, words[12] == 1, words[13] == 1, words[14])
}

fn take_ring(words: &[u32], at: usize) -> Ring
    requires { at + 1 < length words.now }
    ensures { result ≡ unpack_ring words.now at }
{
    Ring {
        oldest: words[at],
        fill: words[at + 1],
    }
}

// 64 bits of two words, the lower first: std has no From of two words.
fn joined(low: u32, high: u32) -> u64
    ensures { result ≡ low + high * 2 ^ 32 }
{
    u64::from(low) + u64::from(high) * 0x1_0000_0000
}

// The state that stands in any words; another word than 1 says no.
#[tactic(auto, unfolding(crate::specs::States::unpack_state))]
pub fn take_any_state(words: &[u32]) -> State
    requires { length words.now ≡ state_words }
    ensures { result ≡ unpack_state words.now }
{
    let regs = take_registers(words);
    let fifo0 = take_ring(words, FIFO0_AT);
    let fifo1 = take_ring(words, FIFO1_AT);
    let events = take_ring(words, EVENTS_AT);
    let shared = take_ring(words, SHARED_AT);
    State {
        regs,
        fifo0,
        fifo1,
        events,
        shared,
        newdata: joined(words[NEW_DATA_LOW_AT], words[NEW_DATA_HIGH_AT]),
        pending: words[PENDING_AT],
        sent: words[SENT_AT],
        cancelled: words[CANCELLED_AT],
    }
}

// The same state, where packed again it gives these words. Beside `take_any_state`: what may not change, this clause,
// and that a start takes any words.
#[tactic(auto, using(crate::proofs::Inverse::taken_back))]
pub fn take_state(words: &[u32]) -> State
    requires { StateWords words.now }
    ensures is { result ≡ unpack_state words.now }
    ensures comes_back { ComesBack words.now }
{
    take_any_state(words)
}

#[tactic(auto, unfolding(crate::specs::States::pack_state))]
fn pack_state(s: State) -> [u32; STATE_WORDS]
    ensures { result ≡ pack_state s }
{
    [
        s.regs.sidfc.word,
        s.regs.xidfc.word,
        s.regs.rxf0c.word,
        s.regs.rxf1c.word,
        s.regs.rxbc.word,
        s.regs.rxesc.word,
        s.regs.txefc.word,
        s.regs.txbc.word,
        s.regs.txesc.word,
        s.regs.gfc.word,
        s.regs.xidam.word,
        s.regs.buffers,
        bit_of(s.regs.fdon),
        bit_of(s.regs.rateon),
        s.regs.memory,
        s.fifo0.oldest,
        s.fifo0.fill,
        s.fifo1.oldest,
        s.fifo1.fill,
        s.events.oldest,
        s.events.fill,
        s.shared.oldest,
        s.shared.fill,
        (s.newdata % 0x1_0000_0000) as u32,
        (s.newdata / 0x1_0000_0000) as u32,
        s.pending,
        s.sent,
        s.cancelled,
    ]
}

pub fn put_state(words: &mut [u32], s: State)
    requires { length words.old ≡ state_words }
    ensures { words.new ≡ pack_state s }
{
    words.copy_from_slice(&pack_state(s));
}

pub fn take_record(words: &[u32]) -> Record
    requires { length words.now ≡ 2 }
    ensures { result ≡ unpack_record words.now }
{
    Record {
        flags: words[0],
        priority: words[1],
    }
}

pub fn put_record(words: &mut [u32], r: Record)
    requires { length words.old ≡ 2 }
    ensures { words.new ≡ pack_record r }
{
    words.copy_from_slice(&[r.flags, r.priority]);
}
