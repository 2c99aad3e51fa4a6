//! The bytes that go to the card: the response code, the ARPC, and the batch of the card's issuer script commands.
ghost use Rattle.std.specs.Prelude.{◌≡◌, ◌+◌, ◌≤◌, [], ◌++◌, length, All, IsTrue};
ghost use Rattle.issuer_base.specs.ScriptCommand.{is_command};
ghost use Rattle.issuer_base.specs.ScriptTemplate.{template_size};
ghost use Rattle.tlv_objects.specs.Writing.{is_tag_number, object_text};
ghost use Rattle.arpc_methods.specs.Arpc.{value91};
ghost use Rattle.key_derive.specs.SessionKey.{session_sm};
ghost use Rattle.secure_msg.specs.Batch.{IsBatch, template_bytes};
ghost use Rattle.row_core.specs.Replying.{answer_bytes, script_bytes};

use arpc_methods::{AnswerParts, MadeAhead, value91};
use arrayvec::ArrayVec;
use issuer_base::{Command, MAX_TEMPLATE_BYTES, Method, Request};
use key_derive::{LazyKeys, SessionKey, session_sm};
use secure_msg::{Template, template_of};
use tlv_objects::{ROOM, put};

/// The tag of the authorisation response code.
const RESPONSE_CODE: u32 = 0x8A;

/// The tag of the issuer authentication data.
const AUTHENTICATION_DATA: u32 = 0x91;

/// Writes the response code and the ARPC, by method 2 that of the card status update, into empty bytes. `session` is
/// the session key for cryptograms of the request's transaction. The ARPC isn't computed again if it was made ahead.
pub(crate) fn write_answer(
    bytes: &mut ArrayVec<u8, ROOM>,
    method: Method,
    session: &SessionKey,
    request: &Request,
    arc: [u8; 2],
    csu: [u8; 4],
    made: Option<&MadeAhead>,
)
    requires { bytes.old.items ≡ [] }
    ensures exact { bytes.new.items ≡ answer_bytes method session.now request.now arc csu }
    ensures room { length bytes.new.items + MAX_TEMPLATE_BYTES ≤ ROOM }
    ensures some { 1 ≤ length bytes.new.items }
{
    let value = authentication_data(method, session, request, arc, csu, made);
    write(bytes, RESPONSE_CODE, &arc);
    write(bytes, AUTHENTICATION_DATA, value.as_slice());
}

/// The value of tag 91: the one that was made ahead, if it was made of these data.
fn authentication_data(
    method: Method,
    session: &SessionKey,
    request: &Request,
    arc: [u8; 2],
    csu: [u8; 4],
    made: Option<&MadeAhead>,
) -> ArrayVec<u8, 16>
    ensures { result.items ≡ value91 session.now.suite method session.now.key request.now.ac arc csu }
{
    let (suite, key, ac) = (session.suite(), session.key(), &request.parts().ac);
    if let Some(made) = made {
        let parts = AnswerParts {
            method,
            key: *key,
            ac: *ac,
            arc,
            csu,
        };
        if let Some(value) = made.value_for(suite, &parts) {
            return value;
        }
    }
    value91(suite, method, key, ac, arc, csu)
}

/// Appends an object to bytes that leave room for it.
fn write(bytes: &mut ArrayVec<u8, ROOM>, tag: u32, value: &[u8])
    requires tag { IsTrue (is_tag_number tag) }
    requires room { length bytes.old.items + length (object_text tag value.now) ≤ ROOM }
    ensures { bytes.new.items ≡ bytes.old.items ++ object_text tag value.now }
{
    put(bytes, tag, value).unwrap();
}

/// Appends the script template of a batch, given in two parts, to the bytes of a reply: nothing if the batch is empty.
/// `keys` are the card's master keys, of which the one for secure messaging is used only for a batch that isn't
/// empty. `first` is the number of the batch's first command.
pub(crate) fn write_scripts(
    bytes: &mut ArrayVec<u8, ROOM>,
    keys: &LazyKeys,
    application_cryptogram: &[u8; 8],
    first: u32,
    front: &[Command],
    back: &[Command],
)
    requires form { All (λ command. IsTrue (is_command command)) (front.now ++ back.now) }
    requires fit { template_size (front.now ++ back.now) ≤ MAX_TEMPLATE_BYTES }
    requires room { length bytes.old.items + MAX_TEMPLATE_BYTES ≤ ROOM }
    ensures { let batch = front.now ++ back.now in
        let script = script_bytes keys.now.suite keys.now.smi.0 application_cryptogram.now first batch in
        bytes.new.items ≡ bytes.old.items ++ script }
{
    if front.is_empty() && back.is_empty() {
        return;
    }
    let template = template_for(keys, application_cryptogram, first, front, back);
    bytes.try_extend_from_slice(template.as_slice()).unwrap();
}

/// The script template of a batch that isn't empty, given in two parts.
fn template_for(
    keys: &LazyKeys,
    application_cryptogram: &[u8; 8],
    first: u32,
    front: &[Command],
    back: &[Command],
) -> Template
    requires { IsBatch (front.now ++ back.now) }
    ensures { let suite = keys.now.suite in
        let key = session_sm suite keys.now.smi.0 application_cryptogram.now in
        result.items ≡ template_bytes suite key application_cryptogram.now first (front.now ++ back.now) }
{
    let suite = keys.suite();
    let key = session_sm(suite, &keys.smi(), application_cryptogram);
    template_of(suite, &key, application_cryptogram, first, front, back)
}
