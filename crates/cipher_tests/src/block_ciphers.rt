//! DES and triple DES: published values, and values of another implementation.

use des_block::{Des, Key16, PermutedBlock, Tdes};

/// Key, block, block enciphered: three published rows, then two rows a key of another implementation.
const DES: [(u64, u64, u64); 23] = [
    (0x133457799BBCDFF1, 0x0123456789ABCDEF, 0x85E813540F0AB405),
    (0x0101010101010101, 0x0000000000000000, 0x8CA64DE9C1B123A7),
    (0x0101010101010101, 0x8000000000000000, 0x95F8A5E5DD31D900),
    (0xEF757AEC6F6166D4, 0x5882DB3F9DCE1C50, 0xFD1DE346F4AC7CB7),
    (0xEF757AEC6F6166D4, 0x6A858EE2D2D81800, 0x5882DB3F9DCE1C50),
    (0x20B9D2F8E8777F8B, 0x3C456627E990D25D, 0x102A2B0156CE42BB),
    (0x20B9D2F8E8777F8B, 0xAA3FD188233C26C4, 0x3C456627E990D25D),
    (0x5A20C789A2D7EA1C, 0xAFB854F7856B80F9, 0xA8FF845CB2288985),
    (0x5A20C789A2D7EA1C, 0x37011CFFF3AC0F42, 0xAFB854F7856B80F9),
    (0x1E699ABAEB58F313, 0xE108B44A35447933, 0x70719E4B195BD8E0),
    (0x1E699ABAEB58F313, 0xF683F9421756B973, 0xE108B44A35447933),
    (0xF5A3C6AB62A96943, 0x8CBCA93323E87A25, 0x465147606CD2FBB3),
    (0xF5A3C6AB62A96943, 0x99BD329E85936376, 0x8CBCA93323E87A25),
    (0xDED1D3AC4F614EE3, 0x4D592BCA3B3AEF15, 0x4F60F772F11A726E),
    (0xDED1D3AC4F614EE3, 0x62C6D62BF0D30589, 0x4D592BCA3B3AEF15),
    (0x50313D90BE3D9E9D, 0x8456CFA871C4DCA9, 0xCEDA4CADFC7EF8B9),
    (0x50313D90BE3D9E9D, 0x1116F5DD2DAFEB85, 0x8456CFA871C4DCA9),
    (0xF544DA1DEAA69FAA, 0xFBF2D31CA60435C5, 0xA351A2CA6E4B8BD6),
    (0xF544DA1DEAA69FAA, 0xC2FDC19F3ADBC5D1, 0xFBF2D31CA60435C5),
    (0xBB0EDAE24C797324, 0x567A9BF222A429D8, 0xC849157284093F97),
    (0xBB0EDAE24C797324, 0x56E56DD5F001B0B9, 0x567A9BF222A429D8),
    (0x5689E52AE9511913, 0x08CEF591024479A7, 0x46D172FA92917C5A),
    (0x5689E52AE9511913, 0xBB15C446C5EE4691, 0x08CEF591024479A7),
];

/// Both halves of the key, block, block enciphered: two rows a key of another implementation.
const TRIPLE_DES: [(u128, u64, u64); 20] = [
    (
        0xB463570B1EA838D7_9520D3A3449A8AFE,
        0xFC9841A7FA580687,
        0x4F5F3EF6A4226900,
    ),
    (
        0xB463570B1EA838D7_9520D3A3449A8AFE,
        0xC725CFC60312C2D4,
        0xFC9841A7FA580687,
    ),
    (
        0x0311371A672AE893_12BAA76C69815DA2,
        0x9D14DE0DF464696A,
        0x94C815B8CBC92B69,
    ),
    (
        0x0311371A672AE893_12BAA76C69815DA2,
        0x251B41FF49E48358,
        0x9D14DE0DF464696A,
    ),
    (
        0xE4993AA537EE9BC4_13AC38618C47E56B,
        0x427216735719E2E7,
        0x719D847624306AC4,
    ),
    (
        0xE4993AA537EE9BC4_13AC38618C47E56B,
        0xA2053E09DFAA80A9,
        0x427216735719E2E7,
    ),
    (
        0x9C8B5A733D93E5BD_B2284989E73A27B5,
        0x5493E185637A0B86,
        0xF30D329FFBED5862,
    ),
    (
        0x9C8B5A733D93E5BD_B2284989E73A27B5,
        0xB87DF02081D87363,
        0x5493E185637A0B86,
    ),
    (
        0xA01DF0071F3347F2_7EF9723C9D641AA1,
        0xFA4E7C2A8D60CA78,
        0x4DDC1A423F15E984,
    ),
    (
        0xA01DF0071F3347F2_7EF9723C9D641AA1,
        0x5C7D3D84D0D30F57,
        0xFA4E7C2A8D60CA78,
    ),
    (
        0x7F977688BCE10048_0993BFC8D8A04499,
        0xCEC9D984B2EA68BD,
        0x2F831D2E402A6CAF,
    ),
    (
        0x7F977688BCE10048_0993BFC8D8A04499,
        0x77A25944D6BB7B58,
        0xCEC9D984B2EA68BD,
    ),
    (
        0xC5E7291B4EE62481_010DF897C170DBFC,
        0x27A915F17A62AF9F,
        0x9C46CC4120390A89,
    ),
    (
        0xC5E7291B4EE62481_010DF897C170DBFC,
        0x6E596BB36FD04D1E,
        0x27A915F17A62AF9F,
    ),
    (
        0x8C8C7921B55E4C7C_564CD2C0B33455C7,
        0x6396E0268F648C70,
        0x34A00D2B722ED5DE,
    ),
    (
        0x8C8C7921B55E4C7C_564CD2C0B33455C7,
        0x675F291865F12A98,
        0x6396E0268F648C70,
    ),
    (
        0x0C7A8C986EA41E13_9AB6E97C955CF1F8,
        0x6450A64FE48A27DC,
        0x614B0797D1CDEF2D,
    ),
    (
        0x0C7A8C986EA41E13_9AB6E97C955CF1F8,
        0x5FE429C1C5612D3E,
        0x6450A64FE48A27DC,
    ),
    (
        0xF9E17AB97E8804DC_914B0CE7C7285993,
        0x1619D5300E97681E,
        0x7FB790BB05A3161C,
    ),
    (
        0xF9E17AB97E8804DC_914B0CE7C7285993,
        0x38A05BA0093EE322,
        0x1619D5300E97681E,
    ),
];

#[test]
fn des_gives_published_and_other_values(rt: HostRuntime) {
    for (key, block, enciphered) in DES {
        let key = key.to_be_bytes();
        let des = Des::new(key);
        assert_eq!(rt; des.encipher_word(block), enciphered);
        assert_eq!(rt; des.decipher_word(enciphered), block);
        let block = block.to_be_bytes();
        let enciphered = enciphered.to_be_bytes();
        assert_eq!(rt; des.encipher(block), enciphered);
        assert_eq!(rt; des.decipher(enciphered), block);
        assert_eq!(rt; des_plain::encipher(key, block), enciphered);
        assert_eq!(rt; des_plain::decipher(key, enciphered), block);
    }

    // Under a weak key, enciphering twice restores the block.
    let des = Des::new([1; 8]);
    assert_eq!(rt;
        des.encipher_word(des.encipher_word(0x0123456789ABCDEF)),
        0x0123456789ABCDEF
    );
}

#[test]
fn triple_des_gives_another_implementations_values(rt: HostRuntime) {
    for (key, block, enciphered) in TRIPLE_DES {
        let tdes = Tdes::new(&Key16(key.to_be_bytes()));
        assert_eq!(rt; tdes.encipher_word(block), enciphered);
        assert_eq!(rt; tdes.decipher_word(enciphered), block);
        assert_eq!(rt;
            tdes.decipher(enciphered.to_be_bytes()),
            block.to_be_bytes()
        );
        let permuted = tdes.encipher_permuted(&PermutedBlock::new(block));
        assert_eq!(rt; permuted.word(), enciphered);
        assert_eq!(rt; tdes.decipher_permuted(&permuted).word(), block);
        let (first, second) = tdes.encipher_both(block.to_be_bytes(), [0; 8]);
        assert_eq!(rt; first, enciphered.to_be_bytes());
        assert_eq!(rt; second, tdes.encipher([0; 8]));
    }
}
