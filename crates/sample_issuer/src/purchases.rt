//! Purchases over 123.45 with the card 4000000000000002.

use issuer_base::{Pan, Parts, Request};

/// The request line of the card's transaction 7. Another program, which works with OpenSSL, made its cryptogram.
pub const REQUEST: &str =
    "A 5A0840000000000000029F26086317DE17856BF19A9F2701809F10200FA501A00000000000000000000000000F0000000000000000000000000000009F37041A2B3C4D9F36020007950500000080009A032601159C01009F02060000000123455F2A020978820239009F1A020276";

/// The cryptogram of that line.
pub const CRYPTOGRAM: u64 = 0x6317DE17_856BF19A;

/// The line of the same transaction of an AES card, with a cryptogram of the same origin.
pub const AES_REQUEST: &str =
    "A 5A0840000000000000029F260847ECBC0F2DCA2ECE9F2701809F10200FA601A00000000000000000000000000F0000000000000000000000000000009F37041A2B3C4D9F36020007950500000080009A032601159C01009F02060000000123455F2A020978820239009F1A020276";

/// The cryptogram of that line.
pub const AES_CRYPTOGRAM: u64 = 0x47ECBC0F_2DCA2ECE;

/// The fields of the purchase with this transaction counter, unpredictable number and cryptogram.
pub fn purchase_parts(counter: u16, unpredictable: u32, ac: u64) -> Option<Parts> {
    let mut iad = [0; 32];
    iad[0] = 0x0F;
    iad[1] = 0xA5;
    iad[2] = 0x01;
    iad[3] = 0xA0;
    iad[16] = 0x0F;
    Some(Parts {
        pan: Pan::new(&[4, 0, 0, 0, 0, 0, 0, 0, 0, 0, 0, 0, 0, 0, 0, 2])?,
        psn: 0x00,
        aip: [0x39, 0x00],
        atc: counter,
        tvr: [0x00, 0x00, 0x00, 0x80, 0x00],
        date: [0x26, 0x01, 0x15],
        kind: 0x00,
        amount: [0x00, 0x00, 0x00, 0x01, 0x23, 0x45],
        other: [0; 6],
        country: [0x02, 0x76],
        currency: [0x09, 0x78],
        un: unpredictable.to_be_bytes(),
        cid: 0x80,
        iad,
        ac: ac.to_be_bytes(),
    })
}

/// The purchase with this transaction counter, unpredictable number and cryptogram.
pub fn purchase(counter: u16, unpredictable: u32, ac: u64) -> Option<Request> {
    Request::new(purchase_parts(counter, unpredictable, ac)?)
}

/// The purchase of an AES card with this transaction counter, unpredictable number and cryptogram.
pub fn aes_purchase(counter: u16, unpredictable: u32, ac: u64) -> Option<Request> {
    let parts = purchase_parts(counter, unpredictable, ac)?;
    let mut iad = parts.iad;
    iad[1] = 0xA6;
    Request::new(Parts { iad, ..parts })
}
