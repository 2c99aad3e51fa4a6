//! The issuer script template that carries a batch of sealed commands.

ghost use Rattle.std.specs.Prelude.{◌≡◌, ℕ, ◌+◌, ◌≤◌, ◌↔◌, List, [], ◌++◌, length, fold, sum_by, IsTrue};
ghost use Rattle.std.specs.List.{flat_map};
ghost use Rattle.issuer_base.specs.declared.request.Suite.{Suite};
ghost use Rattle.key_derive.specs.SuiteRun.{IsRun};
ghost use Rattle.tlv_objects.specs.Writing.{is_tag_number, object_text};
ghost use Rattle.issuer_base.specs.ScriptTemplate.{sealed_size};
ghost use Rattle.secure_msg.specs.Sealing.{command_mac};
ghost use Rattle.secure_msg.specs.Batch.{sealed_commands, IsBatch, template_bytes};

use crate::sealing::seal_in;
use arrayvec::ArrayVec;
use des_block::Key16;
use issuer_base::{BARE_COMMAND_BYTES, BARE_TEMPLATE_BYTES, Command, MAX_TEMPLATE_BYTES, Suite};
use key_derive::SuiteRun;
use tlv_objects::{ROOM, put};

/// The tag of an issuer script template whose commands a card runs after its final cryptogram.
const SCRIPT_TEMPLATE: u32 = 0x72;

/// The tag of the script's identifier: here the number of its first command in the card's queue.
const SCRIPT_IDENTIFIER: u32 = 0x9F18;

/// The tag of an issuer script command.
const SCRIPT_COMMAND: u32 = 0x86;

/// The bytes of a script template.
pub type Template = ArrayVec<u8, MAX_TEMPLATE_BYTES>;

/// Whether one template can carry these commands, as `template` requires: there is one, each is a command that the host
/// sends, and they fit.
pub fn is_batch(commands: &[Command]) -> bool
    ensures { IsTrue result ↔ IsBatch commands.now }
{
    let mut room = BARE_TEMPLATE_BYTES;
    for command in commands {
        room += BARE_COMMAND_BYTES + command.body.len();
        if !command.is_sendable() || room > MAX_TEMPLATE_BYTES {
            return false;
        }
    }
    !commands.is_empty()
}

/// The template of a batch for the card that made this application cryptogram. `first` is the number of the batch's
/// first command in the card's queue. Computes the key schedules of the suite once, however many commands there are.
pub fn template(
    suite: Suite,
    key: &Key16,
    ac: &[u8; 8],
    first: u32,
    commands: &[Command],
) -> Template
    requires { IsBatch commands.now }
    ensures { result.items ≡ template_bytes suite key.now.0 ac.now first commands.now }
{
    template_of(suite, key, ac, first, commands, &[])
}

/// As `template`, for a batch that is given as two slices, as in a ring buffer.
pub fn template_of(
    suite: Suite,
    key: &Key16,
    ac: &[u8; 8],
    first: u32,
    front: &[Command],
    back: &[Command],
) -> Template
    requires { IsBatch (front.now ++ back.now) }
    ensures { result.items ≡ template_bytes suite key.now.0 ac.now first (front.now ++ back.now) }
{
    let mut run = SuiteRun::new(suite, key);
    let mut value = ArrayVec::new();
    write(&mut value, SCRIPT_IDENTIFIER, &first.to_be_bytes());
    let chain = write_sealed(&mut value, &mut run, *ac, front);
    write_sealed(&mut value, &mut run, chain, back);
    let mut bytes = ArrayVec::new();
    write(&mut bytes, SCRIPT_TEMPLATE, value.as_slice());
    let mut template = ArrayVec::new();
    template.try_extend_from_slice(bytes.as_slice()).unwrap();
    template
}

/// Appends an object for each command, sealed by a MAC run over no bytes yet, and returns the next chain.
fn write_sealed(
    value: &mut ArrayVec<u8, ROOM>,
    run: &mut SuiteRun,
    mut chain: [u8; 8],
    commands: &[Command],
) -> [u8; 8]
    requires { length value.old.items + sum_by sealed_size commands.now ≤ ROOM }
    ensures written { (suite : Suite) (key : List ℕ) → IsRun run.old suite key [] → value.new.items
        ≡ value.old.items ++ flat_map (object_text 0x86) (sealed_commands suite key chain commands.now) }
    ensures chain { (suite : Suite) (key : List ℕ) → IsRun run.old suite key []
        → result ≡ fold (command_mac suite key) chain commands.now }
    ensures again { (suite : Suite) (key : List ℕ) → IsRun run.old suite key [] → IsRun run.new suite key [] }
    ensures len { length value.new.items ≡ length value.old.items + sum_by sealed_size commands.now }
{
    for command in commands {
        let (sealed, next) = seal_in(run, &chain, command);
        write(value, SCRIPT_COMMAND, sealed.as_slice());
        chain = next;
    }
    chain
}

/// Appends an object to bytes that leave room for it.
fn write(bytes: &mut ArrayVec<u8, ROOM>, tag: u32, value: &[u8])
    requires tag { IsTrue (is_tag_number tag) }
    requires room { length bytes.old.items + length (object_text tag value.now) ≤ ROOM }
    ensures { bytes.new.items ≡ bytes.old.items ++ object_text tag value.now }
{
    put(bytes, tag, value).unwrap();
}
