//! The whole texts of clearing checks of lines whose cryptograms another program made.

use crate::setting::{book, sample};
use answer_text::LINE_ROOM;
use arrayvec::ArrayVec;
use clearing_check::{Book, write_open, write_total, write_verdict};
use issuer_setup::Issuer;
use std::alloc::Global;
use std::test::Fail;

/// The decided request itself.
const ASKED: &str =
    "A 5A0840000000000000029F26086317DE17856BF19A9F2701809F10200FA501A00000000000000000000000000F0000000000000000000000000000009F37041A2B3C4D9F36020007950500000080009A032601159C01009F02060000000123455F2A020978820239009F1A0202769F3303E0F8C89F34031E03009F3501229F1E0831323334353637388407A00000000410109F090200029F41040000012300";

/// The card's transaction certificate of that transaction.
const CERTIFIED: &str =
    "A 5A0840000000000000029F26086317DE17856BF19A9F2701409F10200FA501A00000000000000000000000000F0000000000000000000000000000009F37041A2B3C4D9F36020007950500000080009A032601159C01009F02060000000123455F2A020978820239009F1A0202769F3303E0F8C89F34031E03009F3501229F1E0831323334353637388407A00000000410109F090200029F41040000012300";

/// The transaction certificate of a transaction that wasn't decided.
const OF_ANOTHER: &str =
    "A 5A0840000000000000029F260809B47BE3DCCA54C39F2701409F10200FA501A00000000000000000000000000F0000000000000000000000000000009F37041A2B3C4D9F36020008950500000080009A032601159C01009F02060000000123455F2A020978820239009F1A0202769F3303E0F8C89F34031E03009F3501229F1E0831323334353637388407A00000000410109F090200029F41040000012300";

/// The transaction certificate over another amount.
const OVER_MORE: &str =
    "A 5A0840000000000000029F2608E441705DBE73C08A9F2701409F10200FA501A00000000000000000000000000F0000000000000000000000000000009F37041A2B3C4D9F36020007950500000080009A032601159C01009F02060000000123465F2A020978820239009F1A0202769F3303E0F8C89F34031E03009F3501229F1E0831323334353637388407A00000000410109F090200029F41040000012300";

/// The lines of the verdicts on these lines, of the open records, and of the totals.
fn cleared(alloc: Global, issuer: &Issuer, book: &mut Book, lines: &[&str]) -> Option<Vec<u8>> {
    let mut text = Vec::new(alloc);
    let mut line = ArrayVec::<u8, LINE_ROOM>::new();
    for certificate in lines {
        let verdict = book.judge(issuer, certificate.as_bytes());
        write_verdict(&verdict, &mut line);
        text.extend_from_slice(line.as_slice()).ok()?;
    }
    for index in 0..book.open_count() {
        let (shard, place) = book.left(index)?;
        write_open(shard, place, &mut line);
        text.extend_from_slice(line.as_slice()).ok()?;
    }
    write_total(book.certified_count(), book.open_count(), &mut line);
    text.extend_from_slice(line.as_slice()).ok()?;
    Some(text)
}

#[test]
fn prints_the_verdicts_the_open_records_and_the_totals(rt: HostRuntime) -> Result<(), Fail> {
    let issuer = sample(rt.alloc()).ok_or("an issuer")?;
    let cases: [(&str, &[&str], &str); 4] = [
        ("no line", &[], "open 0 0\ntotal 0 1\n"),
        ("a certificate", &[CERTIFIED], "certified 0 0\ntotal 1 0\n"),
        (
            "a certificate twice",
            &[CERTIFIED, CERTIFIED],
            "certified 0 0\ncertified 0 0\ntotal 1 0\n",
        ),
        (
            "lines that certify nothing",
            &[ASKED, OF_ANOTHER, OVER_MORE],
            "refused 17\nlone\ndiffers 0 0\nopen 0 0\ntotal 0 1\n",
        ),
    ];
    for (name, lines, expected) in cases {
        let mut book = book(rt.alloc(), &issuer, true).ok_or("a book")?;
        let text = cleared(rt.alloc(), &issuer, &mut book, lines).ok_or("a text")?;
        assert_eq!(rt; text.as_slice(), expected.as_bytes(), "{name}");
    }
    Ok(())
}
