//! The checks of many cryptograms at once: requests of another program, in batches of several sizes, with blanks between
//! them. The program was compared with OpenSSL.

use chip_request::{LineKind, read_line, read_request};
use cryptogram_in::{DesChecks, input};
use des_block::Key16;
use issuer_base::{Request, Suite};
use retail_mac::mac;
use std::test::Fail;

/// The card's key, the request's line, the cryptogram.
const REQUESTS: [(u128, &[u8], u64); 8] = [
    (
        0x94973F8E_E90164EC_EFFECE96_D16AC2F1,
        b"A 5a0613431309248f5f3401378202881195051007a2344d9a0368583f9c01439f02061063588122519f0306b8d293b159469f10200fa5bfd83d9483662776f5783446061a0ffbdc08d2e534a83b52b3c2f478fa3e9f1a027bde5f2a02f0019f2608c99c22923a17eb779f2701969f3602cb139f37040772b57a",
        0xC99C2292_3A17EB77,
    ),
    (
        0x38A3A164_E87A2091_6F6E698C_62C8FC02,
        b"A 5a0a6515486034782475467f5f34014882026e129505e929e89e609a03ef88579c015b9f02069703186858379f030617c466a1ce309f10200fa504cc9894257afb4432677a3db68f0fb198f1a5abfc33757737599c16c87f9f1a0265925f2a028a2e9f26083e049cd633d9d6999f27016d9f3602631f9f370407587ba6",
        0x3E049CD6_33D9D699,
    ),
    (
        0xBC9E742F_514C768D_9FDDA4DF_56B869A5,
        b"A 5a066424426521965f340100820238499505c57dcd996e9a031a18349c01319f02067889454898499f0306f2a784625c2f9f10200fa5924d39724c363d1a7ee965250c8f0fa7c99272c2db464ea2095783edd2dc9f1a028ea75f2a021a1b9f260863cdab43221f2baa9f2701979f3602743e9f3704db7297aa",
        0x63CDAB43_221F2BAA,
    ),
    (
        0x5C072DDE_0F0CEB0C_058ED436_D6C245FC,
        b"A 5a05428805403f5f34014482029de79505c2b387b2649a032737d59c01339f02062782887300279f03069f6463dafcc29f10200fa646bfb55af576aba73b24397637b00fa5cc8ac8729d66010a8f95ea18f7859f1a02cf2f5f2a02c6ae9f26082e455593bb8387d39f2701739f3602a5e19f37048065020f",
        0x2E455593_BB8387D3,
    ),
    (
        0x1B2E5BBA_3C9B75AF_0590F350_C4528F8F,
        b"A 5a05552138875f5f340145820259a69505cea9ae93799a0382adaf9c01a89f02066585904791619f03065010e4fb84f29f10200fa511c9fe85557393d8b47571b9f07b0f0c4b18b9d0999bf7f075af72bfbf0a9f1a02a52f5f2a0202b99f2608a5270934774069dd9f2701559f3602de5d9f370407684394",
        0xA5270934_774069DD,
    ),
    (
        0xAED3B8FA_45826CE7_A4176E7F_60409716,
        b"A 5a0951715815388113826f5f3401058202795b9505e48be3c2039a030c59c39c01da9f02060788653604279f030603c92492d52a9f10200fa58b1effa56e7677c212793efe2f080f487944ec3e5fca720c9ac8723156d39f1a0221175f2a022b3d9f260880fe69f3074a34f29f2701829f3602285b9f37046d0b657a",
        0x80FE69F3_074A34F2,
    ),
    (
        0x0E9B0B48_152D7200_1555E3C6_137C35F0,
        b"A 5a0625667625689f5f3401788202bc8e9505e9234cd88c9a03dac2649c010e9f02067734029531089f0306c830c43cdc569f10200fa60ce7fec3470877d80e11a8e0a16a0f0378d9162ac6ead2ddc1918bc7f0dd9f1a025ab55f2a02d2c19f26086643bbda101bad3a9f2701029f3602fc879f3704be2c28d9",
        0x6643BBDA_101BAD3A,
    ),
    (
        0x6671B7A1_3F20E501_3F22BBC0_811CE340,
        b"A 5a07646754943924915f34012082028fd49505ae6c2ceabc9a035d83c19c012d9f02061403041628129f03068f967543cb439f10200fa5b3a591de56debefd66f36abac0480f6d09eaf9eb67a7fe2a949eba7ea0619f1a0206cb5f2a0205269f2608161bc927f4f77a609f2701609f36025f7b9f3704ba38ad15",
        0x161BC927_F4F77A60,
    ),
];

/// The request of a row.
fn request(row: usize) -> Result<Request, Fail> {
    let (_, line, _) = REQUESTS[row % 8];
    let Ok(LineKind::Ask(objects)) = read_line(line) else {
        return Err(Fail::from("a line of another form"));
    };
    let Ok(request) = read_request(objects.as_slice()) else {
        return Err(Fail::from("a refused request"));
    };
    Ok(request)
}

/// The key of a row's card.
fn key_of(row: usize) -> Key16 {
    Key16(REQUESTS[row % 8].0.to_be_bytes())
}

/// Whether a place of a batch has a blank: each third one, and each whose row is of AES.
fn is_blank(place: usize, request: &Request) -> bool {
    place % 3 == 2 || request.suite() == Suite::Aes
}

/// The checks of a batch of `count` rows, one after another. At the place `wrong` the key is another card's.
fn checks(count: usize, wrong: usize) -> Result<DesChecks, Fail> {
    if count > 128 {
        return Err(Fail::from("a batch of more than 128"));
    }
    let mut checks = DesChecks::new();
    for place in 0..count {
        let request = request(place)?;
        if is_blank(place, &request) {
            checks.push_blank();
        } else if place == wrong {
            checks.push(Key16([7; 16]), &request);
        } else {
            checks.push(key_of(place), &request);
        }
    }
    Ok(checks)
}

// With few, with as many as lanes are worth, and with a whole batch. The cryptogram under the session key that comes is
// the other program's.
#[test]
fn batches_have_the_cryptograms_of_another_program(rt: HostRuntime) -> Result<(), Fail> {
    for count in [0, 1, 20, 21, 65, 128] {
        let sessions = checks(count, 128)?.right_sessions();
        assert_eq!(rt; sessions.len(), count);
        for (place, session) in sessions.as_slice().iter().enumerate() {
            let request = request(place)?;
            let (_, _, want) = REQUESTS[place % 8];
            if let Some(session) = session {
                assert_eq!(rt; mac(session, &input(&request)), want.to_be_bytes());
            }
            assert_eq!(rt; session.is_some(), !is_blank(place, &request));
        }
    }
    Ok(())
}

#[test]
fn another_cards_key_is_found_where_it_is(rt: HostRuntime) -> Result<(), Fail> {
    for wrong in [0, 3, 63, 64, 127] {
        let sessions = checks(128, wrong)?.right_sessions();
        assert_eq!(rt; sessions.len(), 128);
        for (place, session) in sessions.as_slice().iter().enumerate() {
            let is_right = place != wrong && !is_blank(place, &request(place)?);
            assert_eq!(rt; session.is_some(), is_right);
        }
    }
    Ok(())
}

/// The checks of 128 requests of the first row. The last byte of the cryptogram at the place `wrong` is another.
fn checks_with_a_wrong_byte(wrong: usize) -> Result<DesChecks, Fail> {
    let mut checks = DesChecks::new();
    for place in 0..128 {
        let mut parts = *request(0)?.parts();
        if place == wrong {
            parts.ac[7] ^= 1;
        }
        let Some(request) = Request::new(parts) else {
            return Err(Fail::from("a refused request"));
        };
        checks.push(key_of(0), &request);
    }
    Ok(checks)
}

#[test]
fn a_wrong_last_byte_is_found_in_each_lane(rt: HostRuntime) -> Result<(), Fail> {
    for wrong in [0, 64, 127] {
        let sessions = checks_with_a_wrong_byte(wrong)?.right_sessions();
        assert_eq!(rt; sessions.len(), 128);
        for (place, session) in sessions.as_slice().iter().enumerate() {
            assert_eq!(rt; session.is_some(), place != wrong);
        }
    }
    Ok(())
}
