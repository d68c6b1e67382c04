//! Descriptions that a case gives as an argument.
ghost use Rattle.std.specs.Prelude.{IfOk};
ghost use Rattle.spec_plant.specs.Accepted.{IsAccepted};
ghost use Rattle.spec_plant.specs.AcceptedTypes.{AreTypes};
ghost use Rattle.type_layout.specs.Descriptions.{description_of};
ghost use Rattle.type_layout.specs.NamedTypes.{types_of};

use crate::templates::filled;
use case_sheets::{Args, Fault};
use std::alloc::Global;
use symbol_file::read;
use type_layout::{Description, Types};

/// The description whose text the next word gives, for three signals.
pub fn description_of(alloc: Global, args: &mut Args<'_>) -> Result<Description, Fault>
    ensures { IfOk result (λ d. IsAccepted (description_of d) 3) }
{
    let text = filled(alloc, args.octets().as_slice(), "")?;
    match read(alloc, text.as_bytes(), 3)? {
        Ok(description) => Ok(description),
        Err(_) => Err(Fault::BadArgument),
    }
}

/// The types of such a description.
pub fn types_of(alloc: Global, args: &mut Args<'_>) -> Result<Types, Fault>
    ensures { IfOk result (λ types. AreTypes (types_of types)) }
{
    match description_of(alloc, args) {
        Ok(description) => Ok(description.types),
        Err(fault) => Err(fault),
    }
}
