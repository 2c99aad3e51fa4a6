//! An issuer script command, before it is sealed.
ghost use Rattle.std.specs.Prelude.{◌≡◌, ◌↔◌, IsTrue};
ghost use Rattle.issuer_base.specs.ScriptCommand.{is_command};

use crate::limits::MAX_BODY_BYTES;
use arrayvec::ArrayVec;

/// The class byte's low nibble under secure messaging of the host's format: EMV 4.3 Book 3, section 6.3.2.
const SECURE_MESSAGING: u8 = 0x04;

/// The instructions of card block, application unblock, application block, PIN change or unblock, put data and update
/// record.
const INSTRUCTIONS: [u8; 6] = [0x16, 0x18, 0x1E, 0x24, 0xDA, 0xDC];

/// An issuer script command for a card, before it is sealed: EMV 4.3 Book 3, section 6.3.2.
#[derive(PartialEq, Eq, Drop)]
pub struct Command {
    /// The class byte.
    pub cla: u8,

    /// The instruction byte.
    pub ins: u8,

    /// The first parameter.
    pub p1: u8,

    /// The second parameter.
    pub p2: u8,

    /// The data, without their length and their MAC.
    pub body: ArrayVec<u8, MAX_BODY_BYTES>,
}

impl Command {
    /// A copy. It allocates nothing.
    pub fn copy(&self) -> Command
        ensures { result ≡ self.now }
    {
        let mut command = Command {
            cla: self.cla,
            ins: self.ins,
            p1: self.p1,
            p2: self.p2,
            body: ArrayVec::new(),
        };
        command
            .body
            .try_extend_from_slice(self.body.as_slice())
            .unwrap();
        command
    }

    /// Whether the host sends such a command: it has secure messaging, and one of the host's instructions.
    #[tactic(auto, unfolding(crate::specs::ScriptCommand::is_command))]
    pub fn is_sendable(&self) -> bool
        ensures { result ≡ is_command self.now }
    {
        self.cla & 0x0F == SECURE_MESSAGING && INSTRUCTIONS.contains(&self.ins)
    }

    /// Whether the two are the same, as `==` is.
    pub fn is_same(&self, other: &Command) -> bool
        ensures { IsTrue result ↔ (self.now ≡ other.now) }
    {
        self == other
    }
}
