// Elements in the lent memory: stored, read, their bytes as sent.
ghost use Rattle.std.specs.Prelude.{◌≡◌, ◌+◌, ◌≤◌, ◌<◌, ◌^◌, length};
ghost use Rattle.words.specs.Runs.{run, splice};
ghost use Rattle.element.specs.Fitting.{InFields};
ghost use Rattle.element.specs.Needs.{RxInFields, HasElement};
ghost use Rattle.element.specs.Elements.{element, rx_element, tx_element, event_element};
ghost use Rattle.element.specs.Headers.{tx_header_in, event_header_in, headed};
ghost use Rattle.element.specs.Bytes.{rx_read, read_bytes, sent_byte, sent_from};

use crate::{Arrival, Event, EventHeader, RxRead, TxHeader, pack, unpack};
use words::WordAddress;

// An element: where its first word stands, and how many data words it has. That a memory has it is asked by each
// method and is no invariant, which would be no plainer: reads are lent the memory as `&`, stores as `&mut`.
#[derive(Clone, Copy)]
pub struct Element {
    pub at: WordAddress,
    pub words: usize,
}

impl Element {
    // Stores its first two words and its data.
    #[tactic(auto, using(crate::proofs::Storing::element_stored))]
    fn store(self, mem: &mut [u32], first: u32, second: u32, bytes: &[u8])
        requires { HasElement mem.old self.at.0 self.words }
        ensures { mem.new
            ≡ splice mem.old self.at.0 (element first second bytes.now self.words) }
    {
        let start = self.at.0 as usize;
        mem[start] = first;
        mem[start + 1] = second;
        words::bytes::store(mem, WordAddress(self.at.0 + 2), self.words, bytes)
    }

    // Stores a received frame.
    pub fn store_rx(self, mem: &mut [u32], a: Arrival, bytes: &[u8])
        requires { HasElement mem.old self.at.0 self.words × RxInFields a }
        ensures { mem.new ≡ splice mem.old self.at.0 (rx_element a bytes.now self.words) }
    {
        self.store(
            mem,
            pack::first_word(a.frame),
            pack::rx_second_word(a),
            bytes,
        )
    }

    // Stores a frame to send.
    pub fn store_tx(self, mem: &mut [u32], h: TxHeader, bytes: &[u8])
        requires { HasElement mem.old self.at.0 self.words × InFields h.frame }
        ensures { mem.new ≡ splice mem.old self.at.0 (tx_element h bytes.now self.words) }
    {
        self.store(
            mem,
            pack::first_word(h.frame),
            pack::tx_second_word(h),
            bytes,
        )
    }

    // Reads a received frame: as many bytes as the frame has and the element holds go to the front of out.
    #[tactic(auto, using(crate::proofs::Readings::rx_read_is, crate::proofs::Readings::rx_bytes))]
    pub fn read_rx(self, mem: &[u32], out: &mut [u8]) -> RxRead
        requires { HasElement mem.now self.at.0 self.words × (length out.old ≡ 64) }
        ensures { (result ≡ rx_read mem.now self.at.0 self.words)
            × (out.new ≡ splice out.old 0 (read_bytes mem.now self.at.0 self.words)) }
    {
        let start = self.at.0 as usize;
        let header = unpack::rx_header(mem[start], mem[start + 1]);
        let count = (header.frame.data_length() as usize).min(4 * self.words);
        words::bytes::load(mem, WordAddress(self.at.0 + 2), count, out);
        RxRead {
            header,
            count: count as u32,
        }
    }

    // Byte i as sent: 0xCC past the data words.
    #[tactic(auto, unfolding(crate::specs::Bytes::sent_byte, words::specs::Bytes::byte_in))]
    fn sent_byte(self, mem: &[u32], i: usize) -> u8
        requires { HasElement mem.now self.at.0 self.words }
        ensures { result ≡ sent_byte mem.now self.at.0 self.words i }
    {
        let start = self.at.0 as usize;
        if i < 4 * self.words {
            let word = mem[start + 2 + i / 4];
            return words::bytes::byte_of(word, i % 4);
        }
        0xCC
    }

    // Fills out with the bytes as sent from byte first on. By a test of each and not by `fill`: that is compiled to a
    // call of memset, and the archive for C is to need nothing else to be linked (tests/archive).
    #[tactic(auto, using(words::proofs::Runs::filled))]
    fn fill_sent(self, mem: &[u32], first: usize, out: &mut [u8])
        requires element { HasElement mem.now self.at.0 self.words }
        requires places { first + length out.old < 2 ^ 64 }
        ensures { out.new
            ≡ run (λ i. sent_byte mem.now self.at.0 self.words (first + i)) 0 (length out.old) }
    {
        for (i, byte) in out.iter_mut().enumerate() {
            *byte = self.sent_byte(mem, first + i);
        }
    }

    // Writes the first bytes as sent to the front of out.
    pub fn write_sent(self, mem: &[u32], count: usize, out: &mut [u8])
        requires { HasElement mem.now self.at.0 self.words × (count ≤ length out.old) }
        ensures { out.new ≡ splice out.old 0 (sent_from mem.now self.at.0 self.words count) }
    {
        let held = count.min(4 * self.words);
        words::bytes::load(mem, WordAddress(self.at.0 + 2), held, out);
        self.fill_sent(mem, held, &mut out[held..count]);
    }
}

// Stores an event. That the memory has it is asked here and below, as of an Element.
#[tactic(auto, using(crate::proofs::Storing::event_stored))]
pub fn store_event(mem: &mut [u32], at: WordAddress, e: Event)
    requires { (at.0 + 2 ≤ length mem.old) × InFields e.frame }
    ensures { mem.new ≡ splice mem.old at.0 (event_element e.marker e.frame e.time) }
{
    let start = at.0 as usize;
    mem[start] = pack::first_word(e.frame);
    mem[start + 1] = pack::event_second_word(e);
}

// Reads all but the bytes of a frame to send.
pub fn read_tx(mem: &[u32], at: WordAddress) -> TxHeader
    requires { at.0 + 2 ≤ length mem.now }
    ensures { (result ≡ headed tx_header_in mem.now at.0) × InFields result.frame }
{
    let start = at.0 as usize;
    unpack::tx_header(mem[start], mem[start + 1])
}

// Reads an event.
pub fn read_event(mem: &[u32], at: WordAddress) -> EventHeader
    requires { at.0 + 2 ≤ length mem.now }
    ensures { (result ≡ headed event_header_in mem.now at.0) × InFields result.frame × (result.marker < 256) }
{
    let start = at.0 as usize;
    unpack::event_header(mem[start], mem[start + 1])
}
