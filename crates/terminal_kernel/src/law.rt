//! What is written is read.
ghost use Rattle.std.specs.Prelude.{◌≡◌, ◌≤◌, length, Ok};
ghost use Rattle.issuer_base.specs.declared.limits.TheConstants.{MAX_CHIP_BYTES};
ghost use Rattle.issuer_base.specs.declared.request.Request.{Request};
ghost use Rattle.chip_request.specs.Reading.{request_of};
ghost use Rattle.chip_request.specs.LineParts.{line_of};
ghost use Rattle.chip_request.specs.declared.line.LineKind.TheVariants.{Ask};
ghost use Rattle.journal_rec.specs.Record.{IsRequest};
ghost use Rattle.terminal_kernel.specs.Requested.{chip_data};
ghost use Rattle.terminal_kernel.specs.ChipText.{request_line};

/// The chip data of a request say just this request, and its line asks for the check of just these chip data.
///
/// The contract is a theorem on every request; the function does nothing.
pub fn what_is_written_is_read()
    ensures read { (request : Request) → IsRequest request → request_of (chip_data request) ≡ Ok request }
    ensures short { (request : Request) → IsRequest request → length (chip_data request) ≤ MAX_CHIP_BYTES }
    ensures asked { (request : Request) → IsRequest request
        → line_of (request_line request) ≡ Ok (Ask (record { items = chip_data request })) }
{}
