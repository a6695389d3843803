// A frame: its data length, whether it is malformed, its rank in arbitration, and its form as sent.
#![tactic(auto)]

pub mod sizes;

ghost use Rattle.std.specs.Prelude.{◌≡◌, ◌^◌, ◌≤◌, ◌<◌};
ghost use Rattle.frame.specs.Length.{data_length};
ghost use Rattle.frame.specs.Identifier.{IdInKind, base_id};
ghost use Rattle.frame.specs.Malformed.{malformed};
ghost use Rattle.frame.specs.Rank.{after_base, rank};
ghost use Rattle.frame.specs.Sent.{as_sent};

use words::bit_of;

// A frame but for its data, which are lent beside it. The values may be wrong.
#[derive(Clone, Copy)]
pub struct Frame {
    // the identifier
    pub id: u32,
    // of 29 bits, else of 11; apart from the identifier, since calls take any (`malformed`): what may not change
    pub xtd: bool,
    // remote
    pub rtr: bool,
    // FD, else classic
    pub fdf: bool,
    // the bit rate switches
    pub brs: bool,
    // the sender is error passive
    pub esi: bool,
    pub dlc: u32,
}

const FD_BYTES: [u32; 16] = [0, 1, 2, 3, 4, 5, 6, 7, 8, 12, 16, 20, 24, 32, 48, 64];

impl Frame {
    // How many data bytes it has.
    #[tactic(auto, unfolding(crate::specs::Length::data_length))]
    pub fn data_length(self) -> u32
        ensures { (result ≡ data_length self.rtr self.fdf self.dlc) × (result ≤ 64) }
    {
        if self.rtr {
            0
        } else if !self.fdf {
            self.dlc.min(8)
        } else if self.dlc < 16 {
            FD_BYTES[self.dlc as usize]
        } else {
            // No DLC is over 15: such a frame is malformed.
            0
        }
    }

    // Whether it is malformed with so many bytes of data.
    #[tactic(auto, unfolding(crate::specs::Malformed::malformed))]
    pub fn is_malformed(self, len: usize) -> bool
        ensures { result ≡ malformed self len }
    {
        (!self.xtd & (0x7FF < self.id))
            | (self.xtd & (0x1FFF_FFFF < self.id))
            | (15 < self.dlc)
            | (self.fdf & self.rtr)
            | ((self.brs | self.esi) & !self.fdf)
            | (len != self.data_length() as usize)
    }

    // The base identifier.
    fn base_id(self) -> u32
        requires { IdInKind self.xtd self.id }
        ensures { (result ≡ base_id self.xtd self.id) × (result < 2 ^ 11) }
    {
        if self.xtd {
            self.id / 0x4_0000
        } else {
            self.id
        }
    }

    // What tells frames of one base identifier apart.
    fn after_base(self) -> u32
        ensures { (result ≡ after_base self.xtd self.rtr self.id) × (result < 2 ^ 21) }
    {
        let remote = bit_of(self.rtr);
        if self.xtd {
            0x10_0000 + 0x8_0000 + self.id % 0x4_0000 * 2 + remote
        } else {
            remote * 0x10_0000
        }
    }

    // The rank in arbitration: the smaller wins.
    #[tactic(auto, unfolding(crate::specs::Rank::rank))]
    pub fn rank(self) -> u32
        requires { IdInKind self.xtd self.id }
        ensures { (result ≡ rank self.xtd self.rtr self.id) × (result < 2 ^ 32) }
    {
        self.base_id() * 0x20_0000 + self.after_base()
    }

    // The frame as it is sent, by whether FD and the rate switch are on and the sender is error passive.
    #[tactic(auto, unfolding(crate::specs::Sent::as_sent))]
    pub fn as_sent(self, fd: bool, switching: bool, passive: bool) -> Frame
        ensures { result ≡ as_sent self fd switching passive }
    {
        let fdf = !self.rtr & self.fdf & fd;
        Frame {
            fdf,
            brs: fdf & self.brs & switching,
            esi: fdf & (self.esi | passive),
            ..self
        }
    }
}
