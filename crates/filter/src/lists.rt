// The filter list of a kind: where its elements stand in the memory.
ghost use Rattle.std.specs.Prelude.{◌≡◌};
ghost use Rattle.filter.specs.Search.{list_of};

use registers::Registers;
use registers::kinds::SectionRegister;
use words::WordAddress;

// A list: of which kind, where it starts, how many elements it has (a start and a count, since the memory is lent: no
// heap), and what XIDAM lets through.
#[derive(Clone, Copy)]
pub struct FilterList {
    pub xtd: bool,
    pub start: WordAddress,
    pub count: u32,
    pub xidam: u32,
}

impl FilterList {
    // The list of a kind.
    pub fn of_kind(regs: Registers, xtd: bool) -> FilterList
        ensures { result ≡ list_of regs xtd }
    {
        let (start, count) = if xtd {
            (regs.xidfc.start(), regs.xidfc.count())
        } else {
            (regs.sidfc.start(), regs.sidfc.count())
        };
        FilterList {
            xtd,
            start,
            count,
            xidam: regs.xidam.mask(),
        }
    }
}
