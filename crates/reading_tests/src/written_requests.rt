//! The lines of two requests, encoded by hand, that are parsed and written again.

use chip_request::{LineKind, read_line, read_request};
use std::test::Fail;
use terminal_kernel::request_line;

/// A purchase over 123.45 in transaction 263, by a card with an even number of digits and by one with an odd number.
const LINES: [&[u8]; 2] = [
    b"A 5a0840000000000000025f34010082023900950500000080009a032601159c01009f02060000000123459f03060000000000009f10200fa501a00000000000000000000000000f0000000000000000000000000000009f1a0202765f2a0209789f26086317de17856bf19a9f2701809f360201079f37041a2b3c4d",
    b"A 5a05400000007f5f34010082023900950500000080009a032601159c01009f02060000000123459f03060000000000009f10200fa501a00000000000000000000000000f0000000000000000000000000000009f1a0202765f2a0209789f26086317de17856bf19a9f2701809f360201079f37041a2b3c4d",
];

#[test]
fn what_is_read_is_written_again(rt: HostRuntime) -> Result<(), Fail> {
    for line in LINES {
        let Ok(LineKind::Ask(data)) = read_line(line) else {
            return Err(Fail::from("a line of another form"));
        };
        let Ok(request) = read_request(data.as_slice()) else {
            return Err(Fail::from("a refused request"));
        };
        assert_eq!(rt; request.parts().atc, 263);
        assert_eq!(rt; request.amount_value(), 12345);
        assert_eq!(rt; request_line(&request).as_slice(), line);
    }
    Ok(())
}
