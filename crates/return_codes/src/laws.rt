//! Laws of the table of return codes.

ghost use Rattle.return_codes.specs.Code.{AreInverse, HasCodeWhereText};

/// `Code::of` and `Code::number` are inverse, and the codes are those of the table.
pub fn codes_and_numbers_agree()
    ensures inverse { AreInverse }
    ensures table { HasCodeWhereText }
{}
