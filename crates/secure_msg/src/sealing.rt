//! Sealing commands at a chain, and opening sealed ones.

ghost use Rattle.std.specs.Prelude.{◌≡◌, ℕ, ◌+◌, ◌≤◌, List, [], ◌∷◌, ◌++◌, length, Some, IfSome, IfNone, IsTrue};
ghost use Rattle.issuer_base.specs.declared.command.Command.{Command};
ghost use Rattle.issuer_base.specs.declared.request.Suite.{Suite};
ghost use Rattle.issuer_base.specs.ScriptCommand.{is_command};
ghost use Rattle.key_derive.specs.SuiteRun.{IsRun};
ghost use Rattle.script_commands.specs.Commands.{command_of};
ghost use Rattle.secure_msg.specs.Sealing.{sent_bytes, command_mac, sealed_command, unsealed_bytes, opened_command, AreSealed};

use arrayvec::ArrayVec;
use des_block::Key16;
use issuer_base::{Command, MAX_BODY_BYTES, Suite};
use key_derive::SuiteRun;
use script_commands::command_of_parts;

/// How many bytes precede the data of a command that is sent: class, instruction, two parameters and Lc.
const HEADER_BYTES: usize = 5;

/// How many bytes a MAC has.
const MAC_BYTES: usize = 8;

/// How many bytes a sealed command has at most.
pub const MAX_SEALED_BYTES: usize = HEADER_BYTES + MAX_BODY_BYTES + MAC_BYTES;

/// The bytes of a sealed command.
pub type SealedCommand = ArrayVec<u8, MAX_SEALED_BYTES>;

/// Seals a command at a chain, with the MAC of the suite. Returns it and the next chain: the MAC that the sealed
/// command ends with.
pub fn seal(
    suite: Suite,
    key: &Key16,
    chain: &[u8; 8],
    command: &Command,
) -> (SealedCommand, [u8; 8])
    requires { IsTrue (is_command command.now) }
    ensures sealed { result.0.items ≡ sealed_command suite key.now.0 chain.now command.now }
    ensures next { result.1 ≡ command_mac suite key.now.0 chain.now command.now }
{
    seal_in(&mut SuiteRun::new(suite, key), chain, command)
}

/// Seals a command by a MAC run over no bytes yet, and leaves the run so.
pub(crate) fn seal_in(
    run: &mut SuiteRun,
    chain: &[u8; 8],
    command: &Command,
) -> (SealedCommand, [u8; 8])
    ensures sealed { (suite : Suite) (key : List ℕ) → IsRun run.old suite key []
        → result.0.items ≡ sealed_command suite key chain.now command.now }
    ensures next { (suite : Suite) (key : List ℕ) → IsRun run.old suite key []
        → result.1 ≡ command_mac suite key chain.now command.now }
    ensures again { (suite : Suite) (key : List ℕ) → IsRun run.old suite key [] → IsRun run.new suite key [] }
    ensures len { length result.0.items ≡ 13 + length command.now.body.items }
{
    let mut sealed = sent(command);
    run.update(chain);
    run.update(sealed.as_slice());
    let mac = run.take();
    sealed.try_extend_from_slice(&mac).unwrap();
    (sealed, mac)
}

/// The command as it is sent, up to its MAC.
fn sent(command: &Command) -> SealedCommand
    ensures exact { result.items ≡ sent_bytes command.now }
    ensures within { length command.now.body.items ≤ MAX_BODY_BYTES }
{
    let body = command.body.as_slice();
    let lc = (body.len() + MAC_BYTES) as u8;
    let mut sent = ArrayVec::new();
    let header = [command.cla, command.ins, command.p1, command.p2, lc];
    sent.try_extend_from_slice(&header).unwrap();
    sent.try_extend_from_slice(body).unwrap();
    sent
}

/// Opens a sealed command at a chain. Returns it and the next chain; `None` if these bytes are no command of the host,
/// sealed in this suite at this chain.
pub fn unseal(
    suite: Suite,
    key: &Key16,
    chain: &[u8; 8],
    bytes: &[u8],
) -> Option<(Command, [u8; 8])>
    ensures exact { result ≡ opened_command suite key.now.0 chain.now bytes.now }
    ensures sealed { IfSome result (λ found. AreSealed suite key.now.0 chain.now bytes.now found.0 found.1) }
    ensures refused { IfNone result ((command : Command) (next : List ℕ)
        → ¬ AreSealed suite key.now.0 chain.now bytes.now command next) }
{
    let command = unsealed(bytes)?;
    let (sealed, next) = seal(suite, key, chain, &command);
    if sealed.as_slice() != bytes {
        return None;
    }
    Some((command, next))
}

/// The command of the bytes without Lc and MAC, which aren't checked.
#[tactic(auto, unfolding(script_commands::specs::Commands::command_of))]
fn unsealed(bytes: &[u8]) -> Option<Command>
    ensures { result ≡ command_of (unsealed_bytes bytes.now) }
{
    let [cla, ins, p1, p2, _, rest @ ..] = bytes else {
        return None;
    };
    let body = &rest[..rest.len().saturating_sub(MAC_BYTES)];
    command_of_parts(*cla, *ins, *p1, *p2, body)
}

/// At each chain, a sealed command opens to the command and the next chain of eight bytes, and nothing else opens.
pub fn only_sealed_commands_open()
    ensures opens { (suite : Suite) (key chain bytes next : List ℕ) (command : Command)
        → AreSealed suite key chain bytes command next → opened_command suite key chain bytes ≡ Some (command, next) }
    ensures only { (suite : Suite) (key chain bytes next : List ℕ) (command : Command) → length next ≡ 8
        → opened_command suite key chain bytes ≡ Some (command, next) → AreSealed suite key chain bytes command next }
{}
