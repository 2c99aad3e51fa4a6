//! Texts parsed as objects, and objects written as texts.
use arrayvec::ArrayVec;
use std::test::Fail;
use tlv_objects::{Full, Object, Objects, ROOM, TlvFault, put, tag_bytes};

struct Text {
    name: &'static str,
    bytes: &'static [u8],
    objects: &'static [Object<'static>],
    torn: Option<usize>,
}

const AMOUNT: Object<'static> = Object {
    tag: 0x82,
    value: &[0x39, 0x00],
    at: 0,
};

const TEXTS: [Text; 14] = [
    Text {
        name: "empty",
        bytes: &[],
        objects: &[],
        torn: None,
    },
    Text {
        name: "padding alone",
        bytes: &[0, 0],
        objects: &[],
        torn: None,
    },
    Text {
        name: "padding before, between and after",
        bytes: &[
            0x00, 0x82, 0x02, 0x39, 0x00, 0x00, 0x00, 0x9F, 0x36, 0x01, 0x07, 0x00,
        ],
        objects: &[
            Object {
                tag: 0x82,
                value: &[0x39, 0x00],
                at: 1,
            },
            Object {
                tag: 0x9F36,
                value: &[0x07],
                at: 7,
            },
        ],
        torn: None,
    },
    Text {
        name: "length 81",
        bytes: &[0x82, 0x81, 0x02, 0x39, 0x00],
        objects: &[AMOUNT],
        torn: None,
    },
    Text {
        name: "length 82",
        bytes: &[0x82, 0x82, 0x00, 0x02, 0x39, 0x00],
        objects: &[AMOUNT],
        torn: None,
    },
    Text {
        name: "three-byte tag",
        bytes: &[0xDF, 0x81, 0x01, 0x00],
        objects: &[Object {
            tag: 0xDF8101,
            value: &[],
            at: 0,
        }],
        torn: None,
    },
    Text {
        name: "four-byte tag",
        bytes: &[0x82, 0x02, 0x39, 0x00, 0xDF, 0x81, 0x81, 0x01, 0x00],
        objects: &[AMOUNT],
        torn: Some(4),
    },
    Text {
        name: "tag ends early",
        bytes: &[0x00, 0x9F],
        objects: &[],
        torn: Some(1),
    },
    Text {
        name: "long tag ends early",
        bytes: &[0x9F, 0x81],
        objects: &[],
        torn: Some(0),
    },
    Text {
        name: "length is missing",
        bytes: &[0x82],
        objects: &[],
        torn: Some(0),
    },
    Text {
        name: "length 82 ends early",
        bytes: &[0x82, 0x82, 0x00],
        objects: &[],
        torn: Some(0),
    },
    Text {
        name: "length 80",
        bytes: &[0x82, 0x80, 0x00, 0x00],
        objects: &[],
        torn: Some(0),
    },
    Text {
        name: "length 83",
        bytes: &[0x82, 0x83, 0x00, 0x00, 0x00],
        objects: &[],
        torn: Some(0),
    },
    Text {
        name: "value ends early",
        bytes: &[0x82, 0x02, 0x39, 0x00, 0x95, 0x05, 0x00, 0x00],
        objects: &[AMOUNT],
        torn: Some(4),
    },
];

#[test]
fn objects_are_read_up_to_the_torn_place(rt: HostRuntime) {
    for text in &TEXTS {
        let name = text.name;
        let mut objects = Objects::new(text.bytes);
        for object in text.objects {
            assert_eq!(rt; objects.next(), Some(Ok(*object)), "{name}");
        }
        if let Some(at) = text.torn {
            assert_eq!(rt; objects.next(), Some(Err(TlvFault::Torn(at))), "{name}");
        }
        assert!(rt; objects.next().is_none(), "{name}");
    }
}

#[test]
fn objects_are_written_in_their_shortest_form(rt: HostRuntime) -> Result<(), Fail> {
    assert_eq!(rt; tag_bytes(0x9F02).as_slice(), [0x9F, 0x02].as_slice());
    let mut out: ArrayVec<u8, ROOM> = ArrayVec::new();
    assert_eq!(rt; put(&mut out, 0x8A, b"00"), Ok(()));
    assert_eq!(rt; put(&mut out, 0xDF8101, &[]), Ok(()));
    assert_eq!(rt;
        out.as_slice(),
        [0x8A, 0x02, 0x30, 0x30, 0xDF, 0x81, 0x01, 0x00].as_slice()
    );

    // Tag and length of 149 bytes take three bytes.
    assert_eq!(rt; put(&mut out, 0x72, &[0xAA; 150]), Err(Full));
    assert_eq!(rt; out.len(), 8);
    assert_eq!(rt; put(&mut out, 0x72, &[0xAA; 149]), Ok(()));
    assert_eq!(rt; &out.as_slice()[8..12], [0x72, 0x81, 0x95, 0xAA].as_slice());
    assert_eq!(rt; out.len(), ROOM);
    Ok(())
}
