//! Parsing the bytes of a command that isn't sealed yet.

ghost use Rattle.std.specs.Prelude.{◌≡◌, ℕ, ◌↔◌, List, Some, IfOk, OnErr, IsTrue};
ghost use Rattle.std.specs.Result.{result_ok};
ghost use Rattle.issuer_base.specs.declared.command.Command.{Command};
ghost use Rattle.script_commands.specs.Commands.{if_allowed, command_of, AreBytesOf};

use arrayvec::ArrayVec;
use issuer_base::{BadCommand, Command};

/// Parses a command that the host sends: class, instruction, two parameters and the data, without their length. Other
/// bytes are a `BadCommand`.
#[tactic(auto, unfolding(crate::specs::Commands::command_of))]
pub fn read_command(bytes: &[u8]) -> Result<Command, BadCommand>
    ensures exact { result_ok result ≡ command_of bytes.now }
    ensures spelled { IfOk result (AreBytesOf bytes.now) }
    ensures refused { OnErr result ((command : Command) → ¬ AreBytesOf bytes.now command) }
{
    let [cla, ins, p1, p2, body @ ..] = bytes else {
        return Err(BadCommand);
    };
    command_of_parts(*cla, *ins, *p1, *p2, body).ok_or(BadCommand)
}

/// The command of these parts; `None` if the host sends no such command, or it has more than `MAX_BODY_BYTES` of data.
pub fn command_of_parts(cla: u8, ins: u8, p1: u8, p2: u8, data: &[u8]) -> Option<Command>
    ensures { result
        ≡ if_allowed (record { cla = cla; ins = ins; p1 = p1; p2 = p2; body = record { items = «data».now } }) }
{
    let mut body = ArrayVec::new();
    body.try_extend_from_slice(data).ok()?;
    let command = Command {
        cla,
        ins,
        p1,
        p2,
        body,
    };
    if !command.is_sendable() {
        return None;
    }
    Some(command)
}

/// Bytes are parsed as a command exactly if they are its bytes, the host sends it, and its data are not too long.
pub fn commands_have_one_text()
    ensures { (bytes : List ℕ) (command : Command) → (command_of bytes ≡ Some command) ↔ AreBytesOf bytes command }
{}
