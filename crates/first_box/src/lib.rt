// An example for Rattle: a box's registers put together field by field, and the box started. It is document 01's case A.
#![tactic(auto)]

ghost use Rattle.std.specs.Prelude.{◌≡◌, length};
ghost use Rattle.shape.specs.Calls.{done};
ghost use Rattle.layout.specs.Verdict.{meaning};
ghost use Rattle.starting.specs.Starting.{start_says};
ghost use Rattle.handler.specs.Stars.{case_a};

use handler::{
    Gfc, LayoutRefusal, Record, Register, Registers, Rxbc, Rxesc, Rxfc, Sidfc, Started, State,
    Txbc, Txefc, Txesc, WordAddress, Xidam, Xidfc,
};

// The size code of 64 data bytes.
const BYTES_64: u32 = 7;

// 4 and 2 filters, FIFOs of 8 and 4 elements, 5 Rx buffers, 4 events, 2 dedicated and 6 shared Tx buffers, in 2,560
// words: the registers' words are those that document 01 gives.
pub fn registers() -> Registers
    ensures { result ≡ case_a 2560 0x00040260 0x06020428 }
{
    let mut g = Registers::reset();
    g.sidfc = Sidfc::new(4, WordAddress(0));
    g.xidfc = Xidfc::new(2, WordAddress(4));
    g.rxf0c = Rxfc::new(false, 0, 8, WordAddress(8));
    g.rxf1c = Rxfc::new(false, 0, 4, WordAddress(152));
    g.rxbc = Rxbc::new(WordAddress(168));
    g.rxesc = Rxesc::new(BYTES_64, 0, BYTES_64);
    g.txefc = Txefc::new(0, 4, WordAddress(258));
    g.txbc = Txbc::new(false, 6, 2, WordAddress(266));
    g.txesc = Txesc::new(BYTES_64);
    g.gfc = Gfc::new(0, 0, false, false);
    g.xidam = Xidam::new(Xidam::RESET);
    g.buffers = 5;
    g.memory = 2560;
    g
}

// Starts a box with them: accepted with every memory of 2,560 words, whatever the old state and record.
#[tactic(auto, using(crate::proofs::Accepted::none_refuses), unfolding(shape::specs::Calls::call))]
pub fn start(old: State, recorded: Record, mem: &[u32]) -> Result<Started, LayoutRefusal>
    ensures { length mem.now ≡ 2560 → start_says (meaning result) ≡ done }
{
    handler::start(old, recorded, registers(), mem)
}
