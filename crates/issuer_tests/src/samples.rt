//! Configurations, request lines of two cards, and the answers to them. The cryptograms and replies are another program's.

/// A configuration: shards, key index, further members of the key set, the second card's account number, the greatest
/// amount of the last row.
macro_rules! configuration {
    ($shards:literal, $index:literal, $members:literal, $pan:literal, $most:literal) => {
        concat!(
            r#"{"shards":"#,
            $shards,
            r#","keys":[{"dki":"#,
            $index,
            r#","option":"A","ac":"000102030405060708090A0B0C0D0E0F","smi":"101112131415161718191A1B1C1D1E1F""#,
            $members,
            r#"}],"cards":[{"pan":"4000000000000002","psn":"00","method":1},{"pan":""#,
            $pan,
            r#"","psn":"00","method":2}],"table":[{"tvr_mask":"0000000000","tvr_value":"0000000000","cvr_mask":"0000000000","cvr_value":"0000000000","least":0,"most":999999999999,"status":1,"arc":"3036","approve":false,"csu":"00000000"},{"tvr_mask":"0000000000","tvr_value":"0000000000","cvr_mask":"0000000000","cvr_value":"0000000000","least":0,"most":500000,"status":null,"arc":"3030","approve":true,"csu":"00800000"},{"tvr_mask":"0000000000","tvr_value":"0000000000","cvr_mask":"0000000000","cvr_value":"0000000000","least":0,"most":"#,
            $most,
            r#","status":null,"arc":"3035","approve":false,"csu":"00000000"}]}"#,
        )
    };
}

/// One shard, one key set, two cards, and a table that approves up to an amount of 500000.
pub(crate) const CONFIG: &str = configuration!("1", "1", "", "4000000000000010", "999999999999");

/// The same with a shard for each card.
pub(crate) const TWO_SHARDS: &str = configuration!(
    "2",
    "1",
    "",
    "4000000000000010",
    "999999999999"
);

/// The first one with AES keys too, the same as those for triple DES.
pub(crate) const AES_CONFIG: &str = configuration!(
    "1",
    "1",
    r#","aes_ac":"000102030405060708090A0B0C0D0E0F","aes_smi":"101112131415161718191A1B1C1D1E1F""#,
    "4000000000000010",
    "999999999999"
);

/// The first one with a key for confidentiality.
pub(crate) const PIN_CONFIG: &str = configuration!(
    "1",
    "1",
    r#","smc":"202122232425262728292A2B2C2D2E2F""#,
    "4000000000000010",
    "999999999999"
);

/// Two key sets, of both options, with different keys for confidentiality.
pub(crate) const TWO_KEY_SETS: &str = configuration!(
    "1",
    "1",
    r#","smc":"202122232425262728292A2B2C2D2E2F"},{"dki":2,"option":"B","ac":"000102030405060708090A0B0C0D0E0F","smi":"101112131415161718191A1B1C1D1E1F","smc":"303132333435363738393A3B3C3D3E3F""#,
    "4000000000000010",
    "999999999999"
);

/// A key index of more than a byte.
pub(crate) const LARGE_KEY_INDEX: &str = configuration!(
    "1",
    "256",
    "",
    "4000000000000010",
    "999999999999"
);

/// A card that occurs twice.
pub(crate) const CARD_TWICE: &str = configuration!(
    "1",
    "1",
    "",
    "4000000000000002",
    "999999999999"
);

/// A table whose last row doesn't match every amount.
pub(crate) const PARTIAL_TABLE: &str = configuration!("1", "1", "", "4000000000000010", "1");

/// Request lines: account number, ATC, cryptogram, script count, register, unpredictable number, amount, and the lines that follow.
macro_rules! requests {
    ($($pan:literal $atc:literal $ac:literal $count:literal $register:literal $number:literal $amount:literal $following:literal),+ $(,)?) => {
        concat!(
            $(
                "A 5A08",
                $pan,
                "9F2608",
                $ac,
                "9F2701809F10200FA501A00000",
                $count,
                "00000000000000000000F",
                $register,
                "000000000000000000000000009F3704",
                $number,
                "9F3602",
                $atc,
                "950500000080009A032601159C01009F0206",
                $amount,
                "5F2A020978820239009F1A0202769F3303E0F8C89F34031E03009F3501229F1E0831323334353637388407A00000000410109F090200029F41040000012300\n",
                $following
            ),+
        )
    };
}

/// A request line of the first card: ATC, cryptogram.
macro_rules! request {
    ($atc:literal $ac:literal) => {
        requests!("4000000000000002" $atc $ac "0" "0000" "1A2B3C4D" "000000012345" "")
    };
}

/// One that reports on script commands too: script count, register.
macro_rules! reporting {
    ($atc:literal $ac:literal $count:literal $register:literal) => {
        requests!("4000000000000002" $atc $ac $count $register "1A2B3C4D" "000000012345" "")
    };
}

/// One of another amount.
macro_rules! paying {
    ($atc:literal $ac:literal $amount:literal) => {
        requests!("4000000000000002" $atc $ac "0" "0000" "1A2B3C4D" $amount "")
    };
}

/// A clearing line of the first card: ATC, cryptogram, amount. It is a request line with the cryptogram information data of
/// a transaction certificate.
macro_rules! certificate {
    ($atc:literal $ac:literal $amount:literal) => {
        concat!(
            "A 5A0840000000000000029F2608",
            $ac,
            "9F2701409F10200FA501A00000000000000000000000000F0000000000000000000000000000009F37041A2B3C4D9F3602",
            $atc,
            "950500000080009A032601159C01009F0206",
            $amount,
            "5F2A020978820239009F1A0202769F3303E0F8C89F34031E03009F3501229F1E0831323334353637388407A00000000410109F090200029F41040000012300\n"
        )
    };
}

/// A record of the first card's decision, up to the reply: ATC, cryptogram, script count, register, amount, response code and approval.
macro_rules! decision {
    ($atc:literal $ac:literal $count:literal $register:literal $amount:literal $decided:literal) => {
        concat!(
            "d 4000000000000002ffff003900",
            $atc,
            "000000800026011500",
            $amount,
            "000000000000027609781a2b3c4d800fa501a00000",
            $count,
            "00000000000000000000f",
            $register,
            "00000000000000000000000000",
            $ac,
            " ",
            $decided,
            " "
        )
    };
}

/// One of an approval that reports on no script commands: ATC, cryptogram.
macro_rules! approval {
    ($atc:literal $ac:literal) => {
        decision!($atc $ac "0" "0000" "000000012345" "3030 1")
    };
}

/// Request lines of the two cards in turns: ATC, cryptogram of the first, cryptogram of the second.
macro_rules! in_turns {
    ($($atc:literal $first:literal $second:literal),+ $(,)?) => {
        requests!(
            $(
                "4000000000000002" $atc $first "0" "0000" "1A2B3C4D" "000000012345" "",
                "4000000000000010" $atc $second "0" "0000" "1A2B3C4D" "000000012345" ""
            ),+
        )
    };
}

/// The first card's request on an ATC.
pub(crate) const REQUEST_0: &str = request!("0000" "3E3303B6A6EF1E00");

pub(crate) const REQUEST_1: &str = request!("0001" "7C5104B1CE25F56E");

pub(crate) const REQUEST_2: &str = request!("0002" "CBFA5F912723FC48");

pub(crate) const REQUEST_7: &str = request!("0007" "6317DE17856BF19A");

pub(crate) const REQUEST_8: &str = request!("0008" "09B47BE3DCCA54C3");

pub(crate) const REQUEST_9: &str = request!("0009" "07332ABBD4FE880C");

pub(crate) const REQUEST_257: &str = request!("0101" "9BBC3F15300AECCC");

pub(crate) const REQUEST_65535: &str = request!("FFFF" "1E18E39C18AB6CAF");

/// Those of an AES card, the first one with another order of fields.
pub(crate) const AES_REQUEST_1: &str =
    "A 5A0840000000000000025F34010082023900950500000080009A032601159C01009F02060000000123459F03060000000000009F10200FA601A00000000000000000000000000F0000000000000000000000000000009F1A0202765F2A0209789F26081A8B61EC7ADC484B9F2701809F360200019F37041A2B3C4D\n";

pub(crate) const AES_REQUEST_7: &str =
    "A 5A0840000000000000029F260847ECBC0F2DCA2ECE9F2701809F10200FA601A00000000000000000000000000F0000000000000000000000000000009F37041A2B3C4D9F36020007950500000080009A032601159C01009F02060000000123455F2A020978820239009F1A0202769F3303E0F8C89F34031E03009F3501229F1E0831323334353637388407A00000000410109F090200029F41040000012300\n";

/// The transaction certificates of the ATCs 7 and 8, and one of ATC 7 over another amount.
pub(crate) const CERTIFICATE_7: &str = certificate!("0007" "6317DE17856BF19A" "000000012345");

pub(crate) const CERTIFICATE_8: &str = certificate!("0008" "09B47BE3DCCA54C3" "000000012345");

pub(crate) const CERTIFICATE_7_MORE: &str = certificate!("0007" "E441705DBE73C08A" "000000012346");

/// The last bit of the cryptogram is changed.
pub(crate) const REQUEST_7_FORGED: &str = request!("0007" "6317DE17856BF19B");

/// Another unpredictable number.
pub(crate) const REQUEST_7_OTHER: &str =
    requests!("4000000000000002" "0007" "CF0ED6665D446E24" "0" "0000" "00000000" "000000012345" "");

/// The length of the ATC in two bytes.
pub(crate) const REQUEST_7_LONG_LENGTH: &str =
    "A 5A0840000000000000029F26086317DE17856BF19A9F2701809F10200FA501A00000000000000000000000000F0000000000000000000000000000009F37041A2B3C4D9F3681020007950500000080009A032601159C01009F02060000000123455F2A020978820239009F1A0202769F3303E0F8C89F34031E03009F3501229F1E0831323334353637388407A00000000410109F090200029F41040000012300\n";

/// The greatest amount that the table approves, and one more.
pub(crate) const REQUEST_7_GREATEST: &str = paying!("0007" "4768C8FA75F31625" "000000500000");

pub(crate) const REQUEST_8_MORE: &str = paying!("0008" "1386B7992D51CD70" "000000500001");

/// The card ran two commands of the reply on ATC 7.
pub(crate) const REQUEST_9_RAN_TWO: &str = reporting!("0009" "EBA261CB1FC8AF7D" "2" "0007");

pub(crate) const REQUEST_8_RAN_TWO: &str = reporting!("0008" "537FA27E450BDDAC" "2" "0007");

/// The card counts commands of an older reply.
pub(crate) const REQUEST_9_OLDER: &str = reporting!("0009" "7AEEB7E00D9CE6BF" "2" "0005");

/// The card names a transaction that had no reply.
pub(crate) const REQUEST_9_UNKNOWN: &str = reporting!("0009" "974A9CC02B8ECBA3" "0" "0008");

/// An amount with a digit that isn't decimal, the ATC twice, a cryptogram of another type, and a key index and a card
/// that the issuer doesn't have.
pub(crate) const BROKEN_FIELDS: &str = concat!(
    "A 5A0840000000000000029F260800000000000000009F2701809F10200FA501A00000000000000000000000000F0000000000000000000000000000009F37041A2B3C4D9F36020007950500000080009A032601159C01009F02060000000A23455F2A020978820239009F1A0202769F3303E0F8C89F34031E03009F3501229F1E0831323334353637388407A00000000410109F090200029F41040000012300\n",
    "A 5A0840000000000000029F26086317DE17856BF19A9F2701809F10200FA501A00000000000000000000000000F0000000000000000000000000000009F37041A2B3C4D9F36020007950500000080009A032601159C01009F02060000000123455F2A020978820239009F1A0202769F3303E0F8C89F34031E03009F3501229F1E0831323334353637388407A00000000410109F090200029F4104000001239F3602000700\n",
    "A 5A0840000000000000029F26086317DE17856BF19A9F2701409F10200FA501A00000000000000000000000000F0000000000000000000000000000009F37041A2B3C4D9F36020007950500000080009A032601159C01009F02060000000123455F2A020978820239009F1A0202769F3303E0F8C89F34031E03009F3501229F1E0831323334353637388407A00000000410109F090200029F41040000012300\n",
    "A 5A0840000000000000029F26084F250431C9D926B59F2701809F10200FA509A00000000000000000000000000F0000000000000000000000000000009F37041A2B3C4D9F36020007950500000080009A032601159C01009F02060000000123455F2A020978820239009F1A0202769F3303E0F8C89F34031E03009F3501229F1E0831323334353637388407A00000000410109F090200029F41040000012300\n",
    "A 5A0840000000000000289F2608A49AE55534D26CB39F2701809F10200FA501A00000000000000000000000000F0000000000000000000000000000009F37041A2B3C4D9F36020007950500000080009A032601159C01009F02060000000123455F2A020978820239009F1A0202769F3303E0F8C89F34031E03009F3501229F1E0831323334353637388407A00000000410109F090200029F41040000012300\n",
);

/// Each card's request on ATC 7.
pub(crate) const SEVENTH_EACH: &str = in_turns!("0007" "6317DE17856BF19A" "1DE2D48E1E32FA1B");

/// Each card's requests on ATCs 1 to 4, and among them a line of no form, a command for the first card and a status of
/// the second.
pub(crate) const ELEVEN_LINES: &str = requests!(
    "4000000000000002" "0001" "7C5104B1CE25F56E" "0" "0000" "1A2B3C4D" "000000012345" "",
    "4000000000000010" "0001" "45D69C7336B6E5C0" "0" "0000" "1A2B3C4D" "000000012345" "X\n",
    "4000000000000002" "0002" "CBFA5F912723FC48" "0" "0000" "1A2B3C4D" "000000012345" "",
    "4000000000000010" "0002" "2C4E3F1E12B97372" "0" "0000" "1A2B3C4D" "000000012345" "Q 4000000000000002 00 84160000\nS 4000000000000010 00 3\n",
    "4000000000000002" "0003" "749E114D39716009" "0" "0000" "1A2B3C4D" "000000012345" "",
    "4000000000000010" "0003" "DBC6B3477D1DAF52" "0" "0000" "1A2B3C4D" "000000012345" "",
    "4000000000000002" "0004" "213ED3B67E8C32DA" "0" "0000" "1A2B3C4D" "000000012345" "",
    "4000000000000010" "0004" "C269DAC4867D52F7" "0" "0000" "1A2B3C4D" "000000012345" "",
);

/// Each card's requests on ATCs 1 to 20.
pub(crate) const TWENTY_EACH: &str = in_turns!(
    "0001" "7C5104B1CE25F56E" "45D69C7336B6E5C0",
    "0002" "CBFA5F912723FC48" "2C4E3F1E12B97372",
    "0003" "749E114D39716009" "DBC6B3477D1DAF52",
    "0004" "213ED3B67E8C32DA" "C269DAC4867D52F7",
    "0005" "5F208DE1186A8675" "BF125349DBD56E86",
    "0006" "C1B01DE98A830E39" "65E91B0D0ABB1B4F",
    "0007" "6317DE17856BF19A" "1DE2D48E1E32FA1B",
    "0008" "09B47BE3DCCA54C3" "0703F4F2A4DC9F79",
    "0009" "07332ABBD4FE880C" "C53A94FAD02C1B8A",
    "000A" "4B1ACAC6298FF069" "97A3C078392C0BFD",
    "000B" "D76C86FA1E24CDB3" "84B7511A28C63DE3",
    "000C" "97C7C02787BA1D72" "6FBFA4C2B712BCDE",
    "000D" "8C027EB7573D2FAD" "46E299391DFDACE1",
    "000E" "77236DD6AA942368" "ED3B35EBC22FCA01",
    "000F" "2DDEE38B7777AC1D" "43D554A61EBEEEEC",
    "0010" "2FDAF5973D3831A2" "942C1BD79ADAAB19",
    "0011" "C21DF2D0551C8DCE" "3D105C576D96333A",
    "0012" "6D3A4B4AAC6B7FDD" "D149639A24E18678",
    "0013" "BC394B4B17B216C9" "29C11027BDD9E692",
    "0014" "A75292EAC6A03495" "2396922005710C53",
);

/// Commands for the first card with 20 bytes of data each, and with 64.
pub(crate) const FIVE_COMMANDS: &str =
    "Q 4000000000000002 00 84DA00000000000000000000000000000000000000000000\nQ 4000000000000002 00 84DA00000101010101010101010101010101010101010101\nQ 4000000000000002 00 84DA00000202020202020202020202020202020202020202\nQ 4000000000000002 00 84DA00000303030303030303030303030303030303030303\nQ 4000000000000002 00 84DA00000404040404040404040404040404040404040404\n";

pub(crate) const LONG_COMMAND: &str =
    "Q 4000000000000002 00 84DA000000000000000000000000000000000000000000000000000000000000000000000000000000000000000000000000000000000000000000000000000000000000\n";

/// Commands that aren't under secure messaging, and with more data than a command may have.
pub(crate) const BAD_COMMANDS: &str =
    "Q 4000000000000002 00 80160000\nQ 4000000000000010 00 04DA0000ABABABABABABABABABABABABABABABABABABABABABABABABABABABABABABABABABABABABABABABABABABABABABABABABABABABABABABABABABABABABABABABABAB\n";

/// The answers to a request on ATC 7 at position 0, and to its repeat.
pub(crate) const FRESH_7: &str = "fresh 0 0 yes 3030 8a023030910a02369be26b4161bc3030\n";

pub(crate) const KEPT_7: &str = "kept 0 0 yes 3030 8a023030910a02369be26b4161bc3030\n";

/// The answers to each card's request on ATC 7, with a shard for each card.
pub(crate) const FRESH_EACH: &str =
    "fresh 0 0 yes 3030 8a023030910a02369be26b4161bc3030\nfresh 1 0 yes 3030 8a02303091087095934c00800000\n";

/// The answers to five commands, and to 64.
pub(crate) const FIVE_QUEUED: &str = "queued 0 0\nqueued 0 1\nqueued 0 2\nqueued 0 3\nqueued 0 4\n";

pub(crate) const SIXTY_FOUR_QUEUED: &str =
    "queued 0 0\nqueued 0 1\nqueued 0 2\nqueued 0 3\nqueued 0 4\nqueued 0 5\nqueued 0 6\nqueued 0 7\nqueued 0 8\nqueued 0 9\nqueued 0 10\nqueued 0 11\nqueued 0 12\nqueued 0 13\nqueued 0 14\nqueued 0 15\nqueued 0 16\nqueued 0 17\nqueued 0 18\nqueued 0 19\nqueued 0 20\nqueued 0 21\nqueued 0 22\nqueued 0 23\nqueued 0 24\nqueued 0 25\nqueued 0 26\nqueued 0 27\nqueued 0 28\nqueued 0 29\nqueued 0 30\nqueued 0 31\nqueued 0 32\nqueued 0 33\nqueued 0 34\nqueued 0 35\nqueued 0 36\nqueued 0 37\nqueued 0 38\nqueued 0 39\nqueued 0 40\nqueued 0 41\nqueued 0 42\nqueued 0 43\nqueued 0 44\nqueued 0 45\nqueued 0 46\nqueued 0 47\nqueued 0 48\nqueued 0 49\nqueued 0 50\nqueued 0 51\nqueued 0 52\nqueued 0 53\nqueued 0 54\nqueued 0 55\nqueued 0 56\nqueued 0 57\nqueued 0 58\nqueued 0 59\nqueued 0 60\nqueued 0 61\nqueued 0 62\nqueued 0 63\n";

/// The replies to approvals of the first card.
pub(crate) const REPLY_0: &str = "8a023030910a7689da1068630d733030\n";

pub(crate) const REPLY_1: &str = "8a023030910a21aa145ef9f7fca43030\n";

pub(crate) const REPLY_2: &str = "8a023030910a8c25c52ab4d925d93030\n";

pub(crate) const REPLY_3: &str = "8a023030910aeebfc442869f933d3030\n";

pub(crate) const REPLY_7: &str = "8a023030910a02369be26b4161bc3030\n";

pub(crate) const REPLY_65: &str = "8a023030910a2460f3fa6de401fa3030\n";

pub(crate) const REPLY_257: &str = "8a023030910a631e42fdc28acca83030\n";

pub(crate) const REPLY_65535: &str = "8a023030910ad85c87f2f624e6e23030\n";

/// The reply on ATC 7 to the greatest amount that the table approves.
pub(crate) const REPLY_7_GREATEST: &str = "8a023030910a8022f687d456485e3030\n";

/// The reply on ATC 7 with the first three of five commands.
pub(crate) const REPLY_7_THREE: &str =
    "8a023030910a02369be26b4161bc303072709f180400000000862184da00001c0000000000000000000000000000000000000000385ae2d8a0aac9f0862184da00001c0101010101010101010101010101010101010101a888dbfacdb153e9862184da00001c0202020202020202020202020202020202020202e27e3941b91c3eef\n";

/// The replies to approvals of an AES card, the second one with the first three of five commands.
pub(crate) const AES_REPLY_1: &str = "8a023030910a6a33e8bbe8732fa73030\n";

pub(crate) const AES_REPLY_7_THREE: &str =
    "8a023030910a08209bbb4731f66e303072709f180400000000862184da00001c00000000000000000000000000000000000000003734216180082ab0862184da00001c0101010101010101010101010101010101010101b610bc1e43f3bd1c862184da00001c02020202020202020202020202020202020202020088979cf9940366\n";

/// The first line of a journal.
pub(crate) const VERSION: &str = "v2\n";

/// The records of these decisions, up to the reply.
pub(crate) const DECISION_0: &str = approval!("0000" "3e3303b6a6ef1e00");

pub(crate) const DECISION_1: &str = approval!("0001" "7c5104b1ce25f56e");

pub(crate) const DECISION_2: &str = approval!("0002" "cbfa5f912723fc48");

pub(crate) const DECISION_3: &str = approval!("0003" "749e114d39716009");

pub(crate) const DECISION_7: &str = approval!("0007" "6317de17856bf19a");

pub(crate) const DECISION_9: &str = approval!("0009" "07332abbd4fe880c");

pub(crate) const DECISION_65: &str = approval!("0041" "93eed1b2ed608c61");

pub(crate) const DECISION_257: &str = approval!("0101" "9bbc3f15300aeccc");

pub(crate) const DECISION_65535: &str = approval!("ffff" "1e18e39c18ab6caf");

pub(crate) const AES_DECISION_1: &str =
    "d 4000000000000002ffff0039000001000000800026011500000000012345000000000000027609781a2b3c4d800fa601a00000000000000000000000000f0000000000000000000000000000001a8b61ec7adc484b 3030 1 ";

pub(crate) const AES_DECISION_7: &str =
    "d 4000000000000002ffff0039000007000000800026011500000000012345000000000000027609781a2b3c4d800fa601a00000000000000000000000000f00000000000000000000000000000047ecbc0f2dca2ece 3030 1 ";

/// A digit of the cryptogram is changed.
pub(crate) const DECISION_2_CHANGED: &str = approval!("0002" "cbfa5f912723fc40");

pub(crate) const DECISION_7_GREATEST: &str =
    decision!("0007" "4768c8fa75f31625" "0" "0000" "000000500000" "3030 1");

pub(crate) const DECISION_8_BLOCKED: &str =
    decision!("0008" "09b47be3dcca54c3" "0" "0000" "000000012345" "3036 0");

pub(crate) const DECISION_8_MORE: &str =
    decision!("0008" "1386b7992d51cd70" "0" "0000" "000000500001" "3035 0");

pub(crate) const DECISION_8_RAN_TWO: &str =
    decision!("0008" "537fa27e450bddac" "2" "0007" "000000012345" "3030 1");

pub(crate) const DECISION_9_RAN_TWO: &str =
    decision!("0009" "eba261cb1fc8af7d" "2" "0007" "000000012345" "3030 1");

pub(crate) const DECISION_9_OLDER: &str =
    decision!("0009" "7aeeb7e00d9ce6bf" "2" "0005" "000000012345" "3030 1");

pub(crate) const DECISION_9_UNKNOWN: &str =
    decision!("0009" "974a9cc02b8ecba3" "0" "0008" "000000012345" "3030 1");

/// The records of five commands, and of one with 64 bytes of data.
pub(crate) const FIVE_RECORDED: &str =
    "q 4000000000000002ffff 00 84da00000000000000000000000000000000000000000000\nq 4000000000000002ffff 00 84da00000101010101010101010101010101010101010101\nq 4000000000000002ffff 00 84da00000202020202020202020202020202020202020202\nq 4000000000000002ffff 00 84da00000303030303030303030303030303030303030303\nq 4000000000000002ffff 00 84da00000404040404040404040404040404040404040404\n";

pub(crate) const LONG_RECORDED: &str =
    "q 4000000000000002ffff 00 84da000000000000000000000000000000000000000000000000000000000000000000000000000000000000000000000000000000000000000000000000000000000000\n";

/// The output of `show` for the first and the second card if nothing was recorded.
pub(crate) const FIRST_UNTOUCHED: &str =
    "4000000000000002 00 hi - status 0 queued 0 done 0 flight - ok\n";

pub(crate) const SECOND_UNTOUCHED: &str =
    "4000000000000010 00 hi - status 0 queued 0 done 0 flight - ok\n";
