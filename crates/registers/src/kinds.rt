// A type for each register kind: its reset word, its legal bits, the most its count may be, and where its fields stand.
// A field stands at the bits that specs/Kinds gives it; `new` puts a word together from its fields. Each type says its
// own fields, count and start, by document 01's form; what they share is in the traits.
ghost use Rattle.std.specs.Prelude.{ℕ, List, ◌≡◌, [], ◌∷◌, refl};
ghost use Rattle.words.specs.Fields.{only_named, mask_of};
ghost use Rattle.registers.specs.Kinds.{field, flag, bit_of, Fit, Built, section_start};
ghost use Rattle.registers.specs.Kinds.{sidfc, sidfc_count, xidfc, xidfc_count, rxfc, rxfc_overwrite, rxfc_watermark};
ghost use Rattle.registers.specs.Kinds.{rxfc_count, rxbc, rxesc, rxesc_buffers, rxesc_fifo1, rxesc_fifo0};
ghost use Rattle.registers.specs.Kinds.{txefc, txefc_watermark, txefc_count};
ghost use Rattle.registers.specs.Kinds.{txbc, txbc_queue, txbc_shared, txbc_dedicated};
ghost use Rattle.registers.specs.Kinds.{txesc, txesc_size, gfc, gfc_anfs, gfc_anfe, gfc_rrfs, gfc_rrfe, xidam, id_mask};

use crate::field::Field;
use words::{WordAddress, bit_of};

// A register, as its word. Each impl says `value`, `legal` and `word`: a default here is refused, for it names no member.
pub trait Register: Copy {
    // What it is after a reset.
    const RESET: u32;

    // The bits that its fields have.
    const LEGAL: u32;

    ghost fields: { List (ℕ × ℕ) };

    ghost value: { Self → ℕ };

    ghost LEGAL: { ℕ };

    fn word(self) -> u32
        ensures { result ≡ value self };

    ghost legal: { LEGAL ≡ mask_of fields };

    // No bit is set that the document does not name.
    final fn only_named(self) -> bool
        ensures { result ≡ only_named fields (value self) }
    {
        let word = self.word();
        word & Self::LEGAL == word
    }
}

// The word address of a section's first word, in each register that has one.
const SECTION_START: Field = Field { high: 15, low: 2 };

// A register that says where a section of the memory starts.
pub trait SectionRegister: Register {
    final fn start(self) -> WordAddress
        ensures { result.0 ≡ field section_start (Self.value self) }
    {
        WordAddress(SECTION_START.of(self.word()))
    }
}

// 11-bit filters: count and start.
#[derive(Clone, Copy)]
pub struct Sidfc {
    pub word: u32,
}

impl Register for Sidfc {
    const RESET: u32 = 0;

    const LEGAL: u32 = 0xff_fffc;

    ghost LEGAL = { mask_of sidfc };

    ghost fields = { sidfc };

    ghost value = { λ r. r.word };

    ghost legal = { refl };

    fn word(self) -> u32 {
        self.word
    }
}

impl SectionRegister for Sidfc {}

impl Sidfc {
    pub const MOST: u32 = 128;

    pub const EACH: u32 = 1;

    pub const COUNT: Field = Field { high: 23, low: 16 };

    pub const START: Field = SECTION_START;

    pub fn new(count: u32, start: WordAddress) -> Self
        requires { Fit sidfc (count ∷ start.0 ∷ []) }
        ensures { Built sidfc (count ∷ start.0 ∷ []) result.word }
    {
        Self {
            word: Self::COUNT.put(count) + Self::START.put(start.0),
        }
    }

    pub fn count(self) -> u32
        ensures { result ≡ field sidfc_count self.word }
    {
        Self::COUNT.of(self.word)
    }
}

// 29-bit filters: count and start.
#[derive(Clone, Copy)]
pub struct Xidfc {
    pub word: u32,
}

impl Register for Xidfc {
    const RESET: u32 = 0;

    const LEGAL: u32 = 0x7f_fffc;

    ghost LEGAL = { mask_of xidfc };

    ghost fields = { xidfc };

    ghost value = { λ r. r.word };

    ghost legal = { refl };

    fn word(self) -> u32 {
        self.word
    }
}

impl SectionRegister for Xidfc {}

impl Xidfc {
    pub const MOST: u32 = 64;

    pub const EACH: u32 = 2;

    pub const COUNT: Field = Field { high: 22, low: 16 };

    pub const START: Field = SECTION_START;

    pub fn new(count: u32, start: WordAddress) -> Self
        requires { Fit xidfc (count ∷ start.0 ∷ []) }
        ensures { Built xidfc (count ∷ start.0 ∷ []) result.word }
    {
        Self {
            word: Self::COUNT.put(count) + Self::START.put(start.0),
        }
    }

    pub fn count(self) -> u32
        ensures { result ≡ field xidfc_count self.word }
    {
        Self::COUNT.of(self.word)
    }
}

// An Rx FIFO: overwrite, watermark, count and start.
#[derive(Clone, Copy)]
pub struct Rxfc {
    pub word: u32,
}

impl Register for Rxfc {
    const RESET: u32 = 0;

    const LEGAL: u32 = 0xff7f_fffc;

    ghost LEGAL = { mask_of rxfc };

    ghost fields = { rxfc };

    ghost value = { λ r. r.word };

    ghost legal = { refl };

    fn word(self) -> u32 {
        self.word
    }
}

impl SectionRegister for Rxfc {}

impl Rxfc {
    pub const MOST: u32 = 64;

    pub const OVERWRITE: Field = Field { high: 31, low: 31 };

    pub const WATERMARK: Field = Field { high: 30, low: 24 };

    pub const COUNT: Field = Field { high: 22, low: 16 };

    pub const START: Field = SECTION_START;

    pub fn new(overwrite: bool, watermark: u32, count: u32, start: WordAddress) -> Self
        requires { Fit rxfc (bit_of overwrite ∷ watermark ∷ count ∷ start.0 ∷ []) }
        ensures { Built rxfc (bit_of overwrite ∷ watermark ∷ count ∷ start.0 ∷ []) result.word }
    {
        Self {
            word: Self::OVERWRITE.put(bit_of(overwrite))
                + Self::WATERMARK.put(watermark)
                + Self::COUNT.put(count)
                + Self::START.put(start.0),
        }
    }

    pub fn overwrite(self) -> bool
        ensures { result ≡ flag rxfc_overwrite self.word }
    {
        Self::OVERWRITE.is_one(self.word)
    }

    pub fn watermark(self) -> u32
        ensures { result ≡ field rxfc_watermark self.word }
    {
        Self::WATERMARK.of(self.word)
    }

    pub fn count(self) -> u32
        ensures { result ≡ field rxfc_count self.word }
    {
        Self::COUNT.of(self.word)
    }
}

// Rx buffers, whose count is a number of its own: start.
#[derive(Clone, Copy)]
pub struct Rxbc {
    pub word: u32,
}

impl Register for Rxbc {
    const RESET: u32 = 0;

    const LEGAL: u32 = 0xfffc;

    ghost LEGAL = { mask_of rxbc };

    ghost fields = { rxbc };

    ghost value = { λ r. r.word };

    ghost legal = { refl };

    fn word(self) -> u32 {
        self.word
    }
}

impl SectionRegister for Rxbc {}

impl Rxbc {
    pub const MOST: u32 = 64;

    pub const START: Field = SECTION_START;

    pub fn new(start: WordAddress) -> Self
        requires { Fit rxbc (start.0 ∷ []) }
        ensures { Built rxbc (start.0 ∷ []) result.word }
    {
        Self {
            word: Self::START.put(start.0),
        }
    }
}

// Size codes of Rx elements: buffers, FIFO 1 and FIFO 0. Numbers: what may not change, `new` takes them.
#[derive(Clone, Copy)]
pub struct Rxesc {
    pub word: u32,
}

impl Register for Rxesc {
    const RESET: u32 = 0;

    const LEGAL: u32 = 0x777;

    ghost LEGAL = { mask_of rxesc };

    ghost fields = { rxesc };

    ghost value = { λ r. r.word };

    ghost legal = { refl };

    fn word(self) -> u32 {
        self.word
    }
}

impl Rxesc {
    pub const BUFFERS: Field = Field { high: 10, low: 8 };

    pub const FIFO1: Field = Field { high: 6, low: 4 };

    pub const FIFO0: Field = Field { high: 2, low: 0 };

    pub fn new(buffers: u32, fifo1: u32, fifo0: u32) -> Self
        requires { Fit rxesc (buffers ∷ fifo1 ∷ fifo0 ∷ []) }
        ensures { Built rxesc (buffers ∷ fifo1 ∷ fifo0 ∷ []) result.word }
    {
        Self {
            word: Self::BUFFERS.put(buffers) + Self::FIFO1.put(fifo1) + Self::FIFO0.put(fifo0),
        }
    }

    pub fn buffers(self) -> u32
        ensures { result ≡ field rxesc_buffers self.word }
    {
        Self::BUFFERS.of(self.word)
    }

    pub fn fifo1(self) -> u32
        ensures { result ≡ field rxesc_fifo1 self.word }
    {
        Self::FIFO1.of(self.word)
    }

    pub fn fifo0(self) -> u32
        ensures { result ≡ field rxesc_fifo0 self.word }
    {
        Self::FIFO0.of(self.word)
    }
}

// Tx events: watermark, count and start.
#[derive(Clone, Copy)]
pub struct Txefc {
    pub word: u32,
}

impl Register for Txefc {
    const RESET: u32 = 0;

    const LEGAL: u32 = 0x3f3f_fffc;

    ghost LEGAL = { mask_of txefc };

    ghost fields = { txefc };

    ghost value = { λ r. r.word };

    ghost legal = { refl };

    fn word(self) -> u32 {
        self.word
    }
}

impl SectionRegister for Txefc {}

impl Txefc {
    pub const MOST: u32 = 32;

    pub const EACH: u32 = 2;

    pub const WATERMARK: Field = Field { high: 29, low: 24 };

    pub const COUNT: Field = Field { high: 21, low: 16 };

    pub const START: Field = SECTION_START;

    pub fn new(watermark: u32, count: u32, start: WordAddress) -> Self
        requires { Fit txefc (watermark ∷ count ∷ start.0 ∷ []) }
        ensures { Built txefc (watermark ∷ count ∷ start.0 ∷ []) result.word }
    {
        Self {
            word: Self::WATERMARK.put(watermark)
                + Self::COUNT.put(count)
                + Self::START.put(start.0),
        }
    }

    pub fn watermark(self) -> u32
        ensures { result ≡ field txefc_watermark self.word }
    {
        Self::WATERMARK.of(self.word)
    }

    pub fn count(self) -> u32
        ensures { result ≡ field txefc_count self.word }
    {
        Self::COUNT.of(self.word)
    }
}

// Tx buffers: queue, shared, dedicated and start.
#[derive(Clone, Copy)]
pub struct Txbc {
    pub word: u32,
}

impl Register for Txbc {
    const RESET: u32 = 0;

    const LEGAL: u32 = 0x7f3f_fffc;

    ghost LEGAL = { mask_of txbc };

    ghost fields = { txbc };

    ghost value = { λ r. r.word };

    ghost legal = { refl };

    fn word(self) -> u32 {
        self.word
    }
}

impl SectionRegister for Txbc {}

impl Txbc {
    pub const MOST: u32 = 32;

    pub const QUEUE: Field = Field { high: 30, low: 30 };

    pub const SHARED: Field = Field { high: 29, low: 24 };

    pub const DEDICATED: Field = Field { high: 21, low: 16 };

    pub const START: Field = SECTION_START;

    pub fn new(queue: bool, shared: u32, dedicated: u32, start: WordAddress) -> Self
        requires { Fit txbc (bit_of queue ∷ shared ∷ dedicated ∷ start.0 ∷ []) }
        ensures { Built txbc (bit_of queue ∷ shared ∷ dedicated ∷ start.0 ∷ []) result.word }
    {
        Self {
            word: Self::QUEUE.put(bit_of(queue))
                + Self::SHARED.put(shared)
                + Self::DEDICATED.put(dedicated)
                + Self::START.put(start.0),
        }
    }

    pub fn queue(self) -> bool
        ensures { result ≡ flag txbc_queue self.word }
    {
        Self::QUEUE.is_one(self.word)
    }

    pub fn shared(self) -> u32
        ensures { result ≡ field txbc_shared self.word }
    {
        Self::SHARED.of(self.word)
    }

    pub fn dedicated(self) -> u32
        ensures { result ≡ field txbc_dedicated self.word }
    {
        Self::DEDICATED.of(self.word)
    }
}

// Size code of Tx elements, a number as in Rxesc.
#[derive(Clone, Copy)]
pub struct Txesc {
    pub word: u32,
}

impl Register for Txesc {
    const RESET: u32 = 0;

    const LEGAL: u32 = 0x7;

    ghost LEGAL = { mask_of txesc };

    ghost fields = { txesc };

    ghost value = { λ r. r.word };

    ghost legal = { refl };

    fn word(self) -> u32 {
        self.word
    }
}

impl Txesc {
    pub const SIZE: Field = Field { high: 2, low: 0 };

    pub fn new(size: u32) -> Self
        requires { Fit txesc (size ∷ []) }
        ensures { Built txesc (size ∷ []) result.word }
    {
        Self {
            word: Self::SIZE.put(size),
        }
    }

    pub fn size(self) -> u32
        ensures { result ≡ field txesc_size self.word }
    {
        Self::SIZE.of(self.word)
    }
}

// What becomes of frames that no filter matches, a number as in Rxesc, and of remote ones, by 11 and 29 bits.
#[derive(Clone, Copy)]
pub struct Gfc {
    pub word: u32,
}

impl Register for Gfc {
    const RESET: u32 = 0;

    const LEGAL: u32 = 0x3f;

    ghost LEGAL = { mask_of gfc };

    ghost fields = { gfc };

    ghost value = { λ r. r.word };

    ghost legal = { refl };

    fn word(self) -> u32 {
        self.word
    }
}

impl Gfc {
    pub const ANFS: Field = Field { high: 5, low: 4 };

    pub const ANFE: Field = Field { high: 3, low: 2 };

    pub const RRFS: Field = Field { high: 1, low: 1 };

    pub const RRFE: Field = Field { high: 0, low: 0 };

    pub fn new(anfs: u32, anfe: u32, rrfs: bool, rrfe: bool) -> Self
        requires { Fit gfc (anfs ∷ anfe ∷ bit_of rrfs ∷ bit_of rrfe ∷ []) }
        ensures { Built gfc (anfs ∷ anfe ∷ bit_of rrfs ∷ bit_of rrfe ∷ []) result.word }
    {
        Self {
            word: Self::ANFS.put(anfs)
                + Self::ANFE.put(anfe)
                + Self::RRFS.put(bit_of(rrfs))
                + Self::RRFE.put(bit_of(rrfe)),
        }
    }

    pub fn anfs(self) -> u32
        ensures { result ≡ field gfc_anfs self.word }
    {
        Self::ANFS.of(self.word)
    }

    pub fn anfe(self) -> u32
        ensures { result ≡ field gfc_anfe self.word }
    {
        Self::ANFE.of(self.word)
    }

    pub fn rrfs(self) -> bool
        ensures { result ≡ flag gfc_rrfs self.word }
    {
        Self::RRFS.is_one(self.word)
    }

    pub fn rrfe(self) -> bool
        ensures { result ≡ flag gfc_rrfe self.word }
    {
        Self::RRFE.is_one(self.word)
    }
}

// The mask of 29-bit identifiers.
#[derive(Clone, Copy)]
pub struct Xidam {
    pub word: u32,
}

impl Register for Xidam {
    const RESET: u32 = 0x1fff_ffff;

    const LEGAL: u32 = 0x1fff_ffff;

    ghost LEGAL = { mask_of xidam };

    ghost fields = { xidam };

    ghost value = { λ r. r.word };

    ghost legal = { refl };

    fn word(self) -> u32 {
        self.word
    }
}

impl Xidam {
    pub const MASK: Field = Field { high: 28, low: 0 };

    pub fn new(mask: u32) -> Self
        requires { Fit xidam (mask ∷ []) }
        ensures { Built xidam (mask ∷ []) result.word }
    {
        Self {
            word: Self::MASK.put(mask),
        }
    }

    pub fn mask(self) -> u32
        ensures { result ≡ field id_mask self.word }
    {
        Self::MASK.of(self.word)
    }
}
