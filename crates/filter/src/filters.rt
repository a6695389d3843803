// A filter element: how it stands in the memory's words, and which identifiers it matches.
ghost use Rattle.std.specs.Prelude.{◌≡◌};
ghost use Rattle.filter.specs.Elements.{element11, element29};
ghost use Rattle.filter.specs.Matching.{seen, in_range, either_of, at_set_bits, matches};

use registers::field::Field;

// Numbers, no enums, for type and action: what may not change, MatchIsByType speaks of an element of any number.
#[derive(Clone, Copy)]
pub struct FilterElement {
    // the type, 0 to 3
    pub filtertype: u32,
    // 0 to 7
    pub action: u32,
    pub id1: u32,
    pub id2: u32,
}

// The fields of an 11-bit element, by the manual's names: all are of S0.
const SFT: Field = Field { high: 31, low: 30 };

const SFEC: Field = Field { high: 29, low: 27 };

const SFID1: Field = Field { high: 26, low: 16 };

const SFID2: Field = Field { high: 10, low: 0 };

// Of a 29-bit element: EFEC and EFID1 are of F0, EFT and EFID2 of F1.
const EFEC: Field = Field { high: 31, low: 29 };

const EFID1: Field = Field { high: 28, low: 0 };

const EFT: Field = Field { high: 31, low: 30 };

const EFID2: Field = Field { high: 28, low: 0 };

impl FilterElement {
    // An 11-bit element, from its word.
    pub fn decode11(s0: u32) -> FilterElement
        ensures { result ≡ element11 s0 }
    {
        FilterElement {
            filtertype: SFT.of(s0),
            action: SFEC.of(s0),
            id1: SFID1.of(s0),
            id2: SFID2.of(s0),
        }
    }

    // A 29-bit element, from its two words.
    pub fn decode29(f0: u32, f1: u32) -> FilterElement
        ensures { result ≡ element29 f0 f1 }
    {
        FilterElement {
            filtertype: EFT.of(f1),
            action: EFEC.of(f0),
            id1: EFID1.of(f0),
            id2: EFID2.of(f1),
        }
    }

    fn in_range(self, x: u32) -> bool
        ensures { result ≡ in_range self x }
    {
        (self.id1 <= x) & (x <= self.id2)
    }

    fn either_of(self, x: u32) -> bool
        ensures { result ≡ either_of self x }
    {
        (x == self.id1) | (x == self.id2)
    }

    fn at_set_bits(self, x: u32) -> bool
        ensures { result ≡ at_set_bits self x }
    {
        x & self.id2 == self.id1 & self.id2
    }

    // Whether it matches an identifier, in a list of this kind.
    #[tactic(auto, unfolding(crate::specs::Matching::matches, crate::specs::Matching::by_type))]
    pub fn matches(self, xtd: bool, xidam: u32, id: u32) -> bool
        ensures { result ≡ matches xtd xidam self id }
    {
        let x = seen_id(xtd, xidam, id);
        match (self.action, self.filtertype) {
            (0, _) => false,
            (7, _) => x == self.id1,
            (_, 0) => self.in_range(x),
            (_, 1) => self.either_of(x),
            (_, 2) => self.at_set_bits(x),
            _ => xtd & self.in_range(id),
        }
    }
}

// The identifier that the tests see: XIDAM goes over one of 29 bits.
fn seen_id(xtd: bool, xidam: u32, id: u32) -> u32
    ensures { result ≡ seen xtd xidam id }
{
    if xtd { id & xidam } else { id }
}
