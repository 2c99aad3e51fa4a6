//! The line of an answer.
ghost use Rattle.std.specs.Prelude.{◌≡◌, ◌+◌, ◌<◌, ◌≤◌, [], ◌∷◌, ◌++◌, length, codes};
ghost use Rattle.std.specs.List.{join_with_byte};
ghost use Rattle.std.specs.Fmt.{decimal};
ghost use Rattle.hex.specs.Hex.{encode_lower};
ghost use Rattle.arrayvec.specs.ArrayVec.{array_vec_len};
ghost use Rattle.tlv_objects.specs.Writing.{tag_bytes};
ghost use Rattle.answer_text.specs.AnswerText.{printed, IsLine, refusal_words, reply_words};

use crate::words::{LINE_ROOM, put, put_hex, put_number, put_place, put_tag};
use arrayvec::ArrayVec;
use issuer_base::{Answer, Refusal, Reply};

/// Writes the line of an answer to `out`, and replaces its contents.
#[tactic(auto, unfolding(crate::specs::AnswerText::printed, crate::specs::AnswerText::answer_words))]
pub fn write_answer(answer: &Answer, out: &mut ArrayVec<u8, LINE_ROOM>)
    ensures text { out.new.items ≡ printed answer.now }
    ensures line { IsLine out.new.items }
{
    out.clear();
    match answer {
        Answer::Fresh {
            shard,
            place,
            reply,
        } => put_reply(out, b"fresh", *shard, *place, reply),
        Answer::Kept {
            shard,
            place,
            reply,
        } => put_reply(out, b"kept", *shard, *place, reply),
        Answer::Queued { shard, place } => put_place(out, b"queued", *shard, *place),
        Answer::Set { shard, place } => put_place(out, b"set", *shard, *place),
        Answer::Refused(refusal) => put_refusal(out, *refusal),
    }
    out.push(b'\n');
}

fn put_reply(out: &mut ArrayVec<u8, LINE_ROOM>, word: &[u8], shard: u8, place: u64, reply: &Reply)
    requires { array_vec_len out.old + length word.now ≤ 16 }
    ensures text { out.new.items ≡ out.old.items
        ++ join_with_byte 32 (word.now ∷ decimal shard ∷ decimal place ∷ reply_words reply.now) }
    ensures room { array_vec_len out.new < LINE_ROOM }
{
    put_place(out, word, shard, place);
    put(out, if reply.approve { b" yes" } else { b" no" });
    put_hex(out, &reply.arc);
    put_hex(out, reply.bytes.as_slice());
}

#[tactic(auto, unfolding(crate::specs::AnswerText::refusal_words))]
fn put_refusal(out: &mut ArrayVec<u8, LINE_ROOM>, refusal: Refusal)
    requires { array_vec_len out.old ≤ 16 }
    ensures text { out.new.items ≡ out.old.items
        ++ join_with_byte 32 (codes "refused" ∷ refusal_words refusal) }
    ensures room { array_vec_len out.new < LINE_ROOM }
{
    match refusal {
        Refusal::BadLine(column) => put_numbered(out, b"refused 1", u64::from(column)),
        Refusal::BadTlv(offset) => put_numbered(out, b"refused 2", u64::from(offset)),
        Refusal::Missing(tag) => put_tagged(out, b"refused 3", tag),
        Refusal::BadField(tag) => put_tagged(out, b"refused 4", tag),
        Refusal::Repeated(tag) => put_tagged(out, b"refused 5", tag),
        Refusal::UnknownCard => put(out, b"refused 6"),
        Refusal::NotArqc => put(out, b"refused 7"),
        Refusal::UnknownKey(dki) => put_indexed(out, b"refused 8", dki),
        Refusal::BadCryptogram => put(out, b"refused 9"),
        Refusal::Below(greatest) => put_numbered(out, b"refused 10", u64::from(greatest)),
        Refusal::Taken { shard, place } => put_place(out, b"refused 11", shard, place),
        Refusal::Pending => put(out, b"refused 12"),
        Refusal::QueueFull => put(out, b"refused 13"),
        Refusal::BadCommand => put(out, b"refused 14"),
        Refusal::StoreFault => put(out, b"refused 15"),
    }
}

fn put_numbered(out: &mut ArrayVec<u8, LINE_ROOM>, text: &[u8], number: u64)
    requires { array_vec_len out.old + length text.now + 21 ≤ LINE_ROOM }
    ensures text { out.new.items ≡ out.old.items ++ text.now ++ 32 ∷ decimal number }
    ensures room { array_vec_len out.new ≤ array_vec_len out.old + length text.now + 21 }
{
    put(out, text);
    put_number(out, number);
}

fn put_tagged(out: &mut ArrayVec<u8, LINE_ROOM>, text: &[u8], tag: u32)
    requires { array_vec_len out.old + length text.now + 9 ≤ LINE_ROOM }
    ensures text { out.new.items ≡ out.old.items ++ text.now ++ 32 ∷ encode_lower (tag_bytes tag) }
    ensures room { array_vec_len out.new ≤ array_vec_len out.old + length text.now + 9 }
{
    put(out, text);
    put_tag(out, tag);
}

fn put_indexed(out: &mut ArrayVec<u8, LINE_ROOM>, text: &[u8], dki: u8)
    requires { array_vec_len out.old + length text.now + 3 ≤ LINE_ROOM }
    ensures text { out.new.items ≡ out.old.items ++ text.now ++ 32 ∷ encode_lower (dki ∷ []) }
    ensures room { array_vec_len out.new ≤ array_vec_len out.old + length text.now + 3 }
{
    put(out, text);
    put_hex(out, &[dki]);
}
