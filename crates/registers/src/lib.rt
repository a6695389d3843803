// The registers that a start is given.
#![tactic(auto)]

pub mod field;
pub mod kinds;

ghost use Rattle.std.specs.Prelude.{◌≡◌, ◌≤◌, ◌<◌, length, get_or, leb, not, ◌&&◌};
ghost use Rattle.registers.specs.Fields.{fifo_word, fifo_code, dedicated, tx_count, is_queue};
ghost use Rattle.registers.specs.Given.{all_named, registers_from, reset_registers};

use crate::kinds::{
    Gfc, Register, Rxbc, Rxesc, Rxfc, SectionRegister, Sidfc, Txbc, Txefc, Txesc, Xidam, Xidfc,
};

// The eleven registers, the number of Rx buffers, whether FD and the rate switch are on, and the memory's length.
#[derive(Clone, Copy)]
pub struct Registers {
    pub sidfc: Sidfc,
    pub xidfc: Xidfc,
    pub rxf0c: Rxfc,
    pub rxf1c: Rxfc,
    pub rxbc: Rxbc,
    pub rxesc: Rxesc,
    pub txefc: Txefc,
    pub txbc: Txbc,
    pub txesc: Txesc,
    pub gfc: Gfc,
    pub xidam: Xidam,
    pub buffers: u32,
    pub fdon: bool,
    pub rateon: bool,
    pub memory: u32,
}

impl Registers {
    // The words that the manual gives after a reset, with no Rx buffer, FD off, the rate switch off and a length of 0.
    pub fn reset() -> Self
        ensures { result ≡ reset_registers }
    {
        Self::from_words(
            &[
                Sidfc::RESET,
                Xidfc::RESET,
                Rxfc::RESET,
                Rxfc::RESET,
                Rxbc::RESET,
                Rxesc::RESET,
                Txefc::RESET,
                Txbc::RESET,
                Txesc::RESET,
                Gfc::RESET,
                Xidam::RESET,
                0,
            ],
            false,
            false,
            0,
        )
    }

    // The registers of these words, in the order of document 01's case A, and after them the number of Rx buffers.
    pub fn from_words(words: &[u32], fdon: bool, rateon: bool, memory: u32) -> Self
        requires { 12 ≤ length words.now }
        ensures { result ≡ registers_from (λ i. get_or words.now i 0) fdon rateon memory }
    {
        Self {
            sidfc: Sidfc { word: words[0] },
            xidfc: Xidfc { word: words[1] },
            rxf0c: Rxfc { word: words[2] },
            rxf1c: Rxfc { word: words[3] },
            rxbc: Rxbc { word: words[4] },
            rxesc: Rxesc { word: words[5] },
            txefc: Txefc { word: words[6] },
            txbc: Txbc { word: words[7] },
            txesc: Txesc { word: words[8] },
            gfc: Gfc { word: words[9] },
            xidam: Xidam { word: words[10] },
            buffers: words[11],
            fdon,
            rateon,
            memory,
        }
    }

    // No register has a bit set that the document does not name.
    pub fn only_named(self) -> bool
        ensures { result ≡ all_named self }
    {
        self.sidfc.only_named()
            & self.xidfc.only_named()
            & self.rxf0c.only_named()
            & self.rxf1c.only_named()
            & self.rxbc.only_named()
            & self.rxesc.only_named()
            & self.txefc.only_named()
            & self.txbc.only_named()
            & self.txesc.only_named()
            & self.gfc.only_named()
            & self.xidam.only_named()
    }

    // The register of Rx FIFO 0 or 1. A number and no enum: what may not change, `fifo_word` and call 3.
    #[tactic(auto, unfolding(crate::specs::Fields::fifo_word))]
    pub fn fifo(self, number: u32) -> Rxfc
        ensures { result.word ≡ fifo_word self number }
    {
        if number == 0 { self.rxf0c } else { self.rxf1c }
    }

    // The size code of its elements.
    #[tactic(auto, unfolding(crate::specs::Fields::fifo_code))]
    pub fn fifo_code(self, number: u32) -> u32
        ensures { (result ≡ fifo_code self number) × (result < 8) }
    {
        if number == 0 {
            self.rxesc.fifo0()
        } else {
            self.rxesc.fifo1()
        }
    }

    // How many Tx buffers there are, dedicated and shared.
    pub fn tx_count(self) -> u32
        ensures { result ≡ tx_count self }
    {
        self.txbc.dedicated() + self.txbc.shared()
    }

    // Whether the shared Tx buffers are a queue.
    pub fn is_queue(self) -> bool
        ensures { result ≡ is_queue self }
    {
        self.txbc.queue()
    }

    // Whether a Tx buffer is in the shared part, and that is a FIFO.
    pub fn in_shared_fifo(self, buffer: u32) -> bool
        ensures { result ≡ (leb (dedicated self) buffer && not (is_queue self)) }
    {
        self.txbc.dedicated() <= buffer && !self.is_queue()
    }
}
