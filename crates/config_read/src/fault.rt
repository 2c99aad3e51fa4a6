//! The faults of a configuration, and its parts.
ghost use Rattle.std.specs.Prelude.{◌≡◌, ◌+◌, ◌<◌};
ghost use Rattle.config_read.specs.Faults.{number_of_part};

use issuer_base::{MAX_CARDS, NoMemory};

/// A part of a configuration.
#[derive(Clone, Copy, PartialEq, Eq, Debug)]
pub enum ConfigPart {
    /// The whole of it.
    Whole,

    /// The member `shards`.
    Shards,

    /// The member `keys`.
    Keys,

    /// The member `cards`.
    Cards,

    /// The member `table`.
    Table,
}

impl ConfigPart {
    /// The number by which the last line of a run names the part.
    pub fn number(self) -> u8
        ensures { result ≡ number_of_part self }
    {
        match self {
            ConfigPart::Whole => 1,
            ConfigPart::Shards => 2,
            ConfigPart::Keys => 3,
            ConfigPart::Cards => 4,
            ConfigPart::Table => 5,
        }
    }
}

/// Why a configuration is refused.
#[derive(Clone, Copy, PartialEq, Eq, Debug)]
pub enum ConfigFault {
    /// The bytes aren't one JSON value. Whoever wrote them is to blame.
    NotJson,

    /// The configuration is broken in this part: at index 0 the part itself, and at i + 1 its element i.
    At { part: ConfigPart, index: u32 },

    /// Out of memory.
    NoMemory,
}

impl ConfigFault {
    /// The fault of a part itself.
    pub(crate) fn of_part(part: ConfigPart) -> ConfigFault
        ensures { result ≡ ConfigFault.At part 0 }
    {
        ConfigFault::At { part, index: 0 }
    }

    /// The fault of the element of a part at this index, from 0.
    pub(crate) fn of_element(part: ConfigPart, place: u32) -> ConfigFault
        requires { place < MAX_CARDS }
        ensures { result ≡ ConfigFault.At part (place + 1) }
    {
        ConfigFault::At {
            part,
            index: place + 1,
        }
    }
}

impl From<NoMemory> for ConfigFault {
    ghost use Rattle.std.specs.Prelude.{◌≡◌};
    ghost use Rattle.config_read.specs.declared.fault.ConfigFault.TheVariants.{NoMemory};

    ghost from_gives = { λ _ fault. fault ≡ NoMemory };

    fn from(_fault: NoMemory) -> ConfigFault {
        ConfigFault::NoMemory
    }
}
