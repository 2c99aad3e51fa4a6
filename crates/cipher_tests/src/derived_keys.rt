//! The keys of cards and of transactions: values of another program, which was compared with OpenSSL. Keys and blocks are
//! numbers, the first byte the highest.

use des_block::Key16;
use issuer_base::{MasterOption, Pan, Suite};
use key_derive::{
    AesPair, CardKeys, CardSecrets, KeySet, LazyKeys, MasterCiphers, SessionKey, aes_master,
    card_keys, decimal16, master_key, option_a, option_b, session_ac, session_sm,
};
use std::test::Fail;

/// Option, issuer's key, account number, sequence number, card's key. The first row was computed by hand: a weak key.
const MASTER_KEYS: [(MasterOption, u128, &[u8], u8, u128); 10] = [
    (
        MasterOption::A,
        0x01010101_01010101_01010101_01010101,
        &[8, 0, 0, 0, 0, 0, 0, 0, 0, 0, 0, 0, 0, 0],
        0x00,
        0x94F8A4E5_DC31D901_F77C49AB_DCA1F1BA,
    ),
    (
        MasterOption::A,
        0x45BF6F35_281C91A4_C92B1E9D_D9A4AC84,
        &[0, 6, 4, 2, 3, 3, 0, 2],
        0x16,
        0x9E7F104C_46D68304_7FB65D6B_2313FD8A,
    ),
    (
        MasterOption::A,
        0x45EAFA26_BBC20963_29D11764_04CDA09B,
        &[2, 6, 4, 2, 5, 4, 3, 5, 9, 8, 4, 6, 2],
        0x82,
        0xDA269752_9B8ABF32_D9869B92_5E5B7997,
    ),
    (
        MasterOption::A,
        0x3B8DF1C3_7AB16129_4DC6C460_56733004,
        &[1, 4, 8, 2, 4, 1, 1, 8, 1, 4, 2, 1, 5, 8, 8, 4],
        0x79,
        0xA14AF785_29B54CEC_A78CBF04_C119DA02,
    ),
    (
        MasterOption::A,
        0xF01DB0BC_1FADAF5A_69722CBB_509A36E3,
        &[9, 3, 6, 3, 6, 9, 7, 5, 5, 1, 5, 7, 2, 2, 8, 4, 7, 9, 2],
        0x26,
        0x290D253D_3794F8F1_61B5918A_A8929479,
    ),
    (
        MasterOption::B,
        0x0D80A862_C56F8E95_258A33CE_78533994,
        &[8, 4, 7, 3, 8, 4, 5, 8, 0, 3, 7, 9],
        0x28,
        0x0101D054_BCFE1CCD_CEE35E0D_6D19C467,
    ),
    (
        MasterOption::B,
        0xAF3B0799_42082AA4_AAE26AB5_97F1EF43,
        &[9, 9, 6, 9, 9, 4, 5, 1, 7, 8, 1, 3, 0, 9, 5, 5],
        0x59,
        0xBAA2C2B9_3D73FE89_B632EC8F_E53E40C4,
    ),
    (
        MasterOption::B,
        0x3A5F0B9C_B6549181_1120D2EB_B41FE163,
        &[7, 5, 5, 9, 2, 1, 6, 9, 0, 0, 1, 1, 7, 8, 1, 1, 7],
        0x42,
        0x64453149_FD941ADA_B0AD2C70_F732269B,
    ),
    (
        MasterOption::B,
        0xF0B05AEA_056A01B6_5D6FA803_5088F988,
        &[7, 3, 9, 9, 4, 2, 6, 1, 1, 7, 9, 3, 0, 6, 0, 9, 2, 9],
        0x49,
        0x7A13D0E0_949E3D45_02C192AB_E3C4EAD0,
    ),
    (
        MasterOption::B,
        0x063A64C3_F2B8A624_71934487_8F6C38ED,
        &[1, 8, 4, 9, 8, 6, 6, 9, 6, 0, 8, 7, 5, 2, 9, 4, 6, 3, 8],
        0x18,
        0x9849FE7A_7A102F32_7C649D31_DF257C70,
    ),
];

/// Issuer's AES key, account number, sequence number, card's key. The first row is OpenSSL's.
const AES_MASTER_KEYS: [(u128, &[u8], u8, u128); 5] = [
    (
        0x2B7E1516_28AED2A6_ABF71588_09CF4F3C,
        &[0, 0, 0, 0, 0, 0, 0, 0],
        0x00,
        0x7DF76B0C_1AB899B3_3E42F047_B91B546F,
    ),
    (
        0x5A11AC55_A1C225C2_E376D792_94F15654,
        &[1, 8, 9, 5, 9, 1, 5, 0],
        0x11,
        0x178A76B8_E4DEAD26_477686B2_9EE1E287,
    ),
    (
        0xF60EEBF1_EF8DE894_CDD9D874_56091C6D,
        &[0, 8, 3, 6, 6, 5, 4, 3, 0, 4, 0, 6, 2, 9, 1, 4, 2, 6, 7],
        0x40,
        0xC84F0BA5_1B0062CA_682A71E4_90B987B2,
    ),
    (
        0xF3FFA7DA_6A9BF432_F480AEF9_6664CC6B,
        &[9, 8, 6, 3, 3, 7, 6, 4, 2, 4, 9],
        0x32,
        0x29E53A85_4D6A154B_A2DD4C42_E7F16315,
    ),
    (
        0x48AA50FC_DD67E5D3_88E50331_1050D89E,
        &[3, 8, 0, 1, 9, 1, 4, 5, 5, 6, 4, 4, 6, 5, 3],
        0x99,
        0x265FB928_100430C2_F653C73C_6A536D67,
    ),
];

/// Option, issuer's keys for cryptograms and for secure messaging, account number, sequence number, card's two keys.
const CARDS: [(MasterOption, u128, u128, &[u8], u8, u128, u128); 4] = [
    (
        MasterOption::A,
        0xDDF1DA21_32AFB7D3_17680B1A_CC706866,
        0x5EDEFF59_858E2EF6_A2B6D5BE_DE7E5429,
        &[4, 9, 4, 3, 0, 9, 4, 1, 4, 8],
        0x59,
        0x9D67F183_A489AE32_525DCD20_015DD5D5,
        0xFEB38370_E3973192_1C6BFBAD_9B8A1904,
    ),
    (
        MasterOption::A,
        0xE24064C2_C088B0FF_D408A4E8_C58B6088,
        0x09EF7C34_09EC222C_AA5F2332_D9229575,
        &[7, 8, 8, 8, 6, 3, 2, 5, 6, 8, 1, 1, 9, 7, 7, 2, 1, 8],
        0x80,
        0xECBCBAE6_8A831954_675E459B_E5AE4502,
        0x68857C51_E5AD584C_D9C4EA98_13ADE3E6,
    ),
    (
        MasterOption::B,
        0x7DB67549_75FDDC74_E142D249_38A9A3A8,
        0x7DD9351A_183BF0CE_52EA2033_0A02AA90,
        &[1, 6, 8, 7, 7, 8, 8, 2, 2, 8, 5, 4, 2, 3],
        0x33,
        0x701CD626_57FB5E92_0E0E31F4_23670BF2,
        0xDF0B799D_C8851A02_FEB0708F_647691C2,
    ),
    (
        MasterOption::B,
        0x89555D27_C97F1669_E60C44C0_BDE90ADA,
        0xDD09B8E4_3374FC66_8BB9D0D3_988AE2E2,
        &[1, 3, 0, 3, 4, 2, 7, 4, 1, 7, 3, 5, 9, 0, 7, 8, 0, 6],
        0x30,
        0x40984068_EF204307_1AEFB0B9_94D331F2,
        0xAD4FFE98_BF38D0F8_73BAFDA2_D52585C2,
    ),
];

/// Digest, its sixteen decimal digits. The first is the digest of "abc". The first two rows were computed by hand; the
/// others have five, six, eleven and sixteen or more decimal nibbles.
const DIGESTS: [([u8; 20], u64); 6] = [
    (
        [
            0xA9, 0x99, 0x3E, 0x36, 0x47, 0x06, 0x81, 0x6A, 0xBA, 0x3E, 0x25, 0x71, 0x78, 0x50,
            0xC2, 0x6C, 0x9C, 0xD0, 0xD8, 0x9D,
        ],
        0x99933647_06816325,
    ),
    (
        [
            0xAB, 0xAB, 0xAB, 0xAB, 0xAB, 0xAB, 0xAB, 0xAB, 0xAB, 0xAB, 0xAB, 0xAB, 0xAB, 0xAB,
            0xAB, 0xAB, 0xAB, 0xAB, 0xAB, 0xAB,
        ],
        0x01010101_01010101,
    ),
    (
        [
            0xAB, 0xEF, 0xCD, 0xCD, 0xD1, 0xAB, 0xEF, 0xD1, 0xEF, 0x2C, 0xFA, 0xAB, 0xD1, 0xAB,
            0xEF, 0xCD, 0xD1, 0xEF, 0xFA, 0xEF,
        ],
        0x11211014_52323301,
    ),
    (
        [
            0xFA, 0xCD, 0xEF, 0xCD, 0xCD, 0x2C, 0xCD, 0x2C, 0xAB, 0xFA, 0xCD, 0xD1, 0x2C, 0xEF,
            0xCD, 0x2C, 0xAB, 0xFA, 0xD1, 0xEF,
        ],
        0x22122150_23452323,
    ),
    (
        [
            0xD1, 0xCD, 0xAB, 0x2C, 0xEF, 0x2C, 0x2C, 0x2C, 0xD1, 0xFA, 0xAB, 0xAB, 0xFA, 0xD1,
            0xEF, 0x2C, 0x2C, 0xCD, 0x2C, 0x2C,
        ],
        0x12222112_22232301,
    ),
    (
        [
            0xFA, 0x8F, 0xDE, 0xCF, 0x52, 0x72, 0x9C, 0x9F, 0xBE, 0x70, 0x46, 0xE5, 0x40, 0x6D,
            0x02, 0x9A, 0xBE, 0x9F, 0xE9, 0xC2,
        ],
        0x85272997_04654060,
    ),
];

/// Suite, card's key, transaction counter, session key for cryptograms. The rows with AES are OpenSSL's.
const FOR_CRYPTOGRAMS: [(Suite, u128, u16, u128); 5] = [
    (
        Suite::TripleDes,
        0x66F34B8B_63DE5D9B_4AD38727_165B88B5,
        0x97F4,
        0x2F627D02_5908E291_05F9BABF_F06E8031,
    ),
    (
        Suite::TripleDes,
        0x7C061AF3_7BEFE6A2_D339D7D2_4FF53515,
        0x7227,
        0x3F508B4D_EBAED7F4_C80C2512_D18C3C1B,
    ),
    (
        Suite::TripleDes,
        0x47E44D40_9D09CFE2_7EC04B63_43A7D4F0,
        0x81E9,
        0xCD24F01B_C129FD07_72AFF17E_F78A5628,
    ),
    (
        Suite::Aes,
        0x2B7E1516_28AED2A6_ABF71588_09CF4F3C,
        0x0000,
        0x7DF76B0C_1AB899B3_3E42F047_B91B546F,
    ),
    (
        Suite::Aes,
        0x47E44D40_9D09CFE2_7EC04B63_43A7D4F0,
        0x81E9,
        0x5F92F085_4521D5F3_1F5A04A5_AC0BAE14,
    ),
];

/// Suite, card's key, application cryptogram, session key for secure messaging. The rows with AES are OpenSSL's.
const FOR_MESSAGES: [(Suite, u128, u64, u128); 5] = [
    (
        Suite::TripleDes,
        0xAF147C25_665AC967_943B01F7_62EEAAD7,
        0xFF0CEAA7_09B8B765,
        0xC404C258_421045F5_8BBDBB90_C8FADDEF,
    ),
    (
        Suite::TripleDes,
        0xB82232EA_3794DE6F_578633FE_9165E23B,
        0x0F4D271B_8439518F,
        0x47C714F0_E9F9CCA4_79AFA145_C6E15B8C,
    ),
    (
        Suite::TripleDes,
        0xED5FF18E_B455B0FA_9D80842E_80C83F37,
        0x1E96EC92_EE006558,
        0x32D9B6F5_805FCDB4_42B9491F_7BDCC7E2,
    ),
    (
        Suite::Aes,
        0x2B7E1516_28AED2A6_ABF71588_09CF4F3C,
        0x00000000_00000000,
        0x7DF76B0C_1AB899B3_3E42F047_B91B546F,
    ),
    (
        Suite::Aes,
        0xB82232EA_3794DE6F_578633FE_9165E23B,
        0x0F4D271B_8439518F,
        0xA79E82A0_92E2EFDA_B409709C_F3887C2C,
    ),
];

#[test]
fn master_keys_are_those_of_another_program(rt: HostRuntime) -> Result<(), Fail> {
    for (option, imk, digits, psn, want) in MASTER_KEYS {
        let imk = Key16(imk.to_be_bytes());
        let pan = Pan::new(digits).ok_or("an account number")?;
        let direct = match option {
            MasterOption::A => option_a(&imk, &pan, psn),
            MasterOption::B => option_b(&imk, &pan, psn),
        };
        assert_eq!(rt; direct.0, want.to_be_bytes());
        assert_eq!(rt; master_key(option, &imk, &pan, psn), direct);
    }
    Ok(())
}

/// Whether each way to a card's keys gives these, and a cached key the same session key.
fn gives(set: &KeySet, pan: &Pan, psn: u8, want: CardKeys) -> bool {
    let suite = want.suite;
    let ciphers = MasterCiphers::new(set);
    let mut secrets = CardSecrets::of(set, pan, psn);
    let (Some(lazy), Some(own)) = (LazyKeys::of(set, suite, pan, psn), secrets.keys(suite)) else {
        return false;
    };
    let derived = *secrets.session(suite, 7).key();
    secrets.keep_by(&ciphers);
    secrets.keep(suite);
    let cached = *secrets.session(suite, 7).key();
    lazy.pair() == want
        && own.pair() == want
        && card_keys(set, suite, pan, psn) == Some(want)
        && ciphers.card_keys(suite, pan, psn) == Some(want)
        && derived == *SessionKey::for_cryptograms(&want, 7).key()
        && derived == cached
}

#[test]
fn card_keys_are_those_of_another_program(rt: HostRuntime) -> Result<(), Fail> {
    for (option, imk_ac, imk_smi, digits, psn, ac, smi) in CARDS {
        let set = KeySet {
            dki: 1,
            option,
            ac: Key16(imk_ac.to_be_bytes()),
            smi: Key16(imk_smi.to_be_bytes()),
            aes: None,
            smc: None,
        };
        let want = CardKeys {
            suite: Suite::TripleDes,
            ac: Key16(ac.to_be_bytes()),
            smi: Key16(smi.to_be_bytes()),
        };
        let pan = Pan::new(digits).ok_or("an account number")?;
        assert!(rt; gives(&set, &pan, psn, want));
        assert!(rt; card_keys(&set, Suite::Aes, &pan, psn).is_none());
    }
    Ok(())
}

#[test]
fn aes_keys_are_those_of_another_program(rt: HostRuntime) -> Result<(), Fail> {
    for (imk, digits, psn, want) in AES_MASTER_KEYS {
        let imk = Key16(imk.to_be_bytes());
        let smi = Key16([0x11; 16]);
        let pan = Pan::new(digits).ok_or("an account number")?;
        let ac = aes_master(&imk, &pan, psn);
        assert_eq!(rt; ac.0, want.to_be_bytes());
        let set = KeySet {
            aes: Some(AesPair { ac: imk, smi }),
            smc: None,
            ..KeySet::default()
        };
        let want = CardKeys {
            suite: Suite::Aes,
            ac,
            smi: aes_master(&smi, &pan, psn),
        };
        assert!(rt; gives(&set, &pan, psn, want));
    }
    Ok(())
}

#[test]
fn digests_give_sixteen_decimal_digits(rt: HostRuntime) {
    for (digest, want) in DIGESTS {
        assert_eq!(rt; decimal16(&digest), want.to_be_bytes());
    }
}

#[test]
fn session_keys_are_those_of_another_program(rt: HostRuntime) {
    for (suite, mk, atc, want) in FOR_CRYPTOGRAMS {
        let mk = Key16(mk.to_be_bytes());
        assert_eq!(rt; session_ac(suite, &mk, atc).0, want.to_be_bytes());
    }
    for (suite, mk, ac, want) in FOR_MESSAGES {
        let mk = Key16(mk.to_be_bytes());
        assert_eq!(rt;
            session_sm(suite, &mk, &ac.to_be_bytes()).0,
            want.to_be_bytes()
        );
    }
}
