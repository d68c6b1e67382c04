//! Description rule 14: signals of symbols.
ghost use Rattle.std.specs.Prelude.{◌≡◌, ◌++◌, [], map, flat_map, IfOk, OnOk};
ghost use Rattle.spec_plant.specs.Accepted.{may_have_signal};
ghost use Rattle.spec_rules.specs.Written as rules;
ghost use Rattle.spec_rules.specs.Places.{first_wrong};
ghost use Rattle.spec_rules.specs.SymbolRules.{wrong_signal};
ghost use Rattle.spec_rules.specs.Described.{shape_described};
ghost use Rattle.spec_plant.specs.Listed as listed;
ghost use Rattle.type_layout.specs.Shapes.{elem_of};
ghost use Rattle.type_layout.specs.NamedTypes.{types_of};
ghost use Rattle.description_rules.specs.KnownTypes.{IsKnown};
ghost use Rattle.description_rules.specs.Placed.{use_view, use_of, is_right_use};
ghost use Rattle.description_rules.specs.NextNumber.{IsNextUse};
ghost use Rattle.description_table.specs.Views.{port_view, symbol_view};

use crate::known_types::KnownTypes;
use crate::named_shapes::described_shape;
use crate::numbers::is_signal;
use crate::seen_numbers::{SeenNumbers, note_number};
use ads_base::NoMemory;
use description_table::{WrittenPort, WrittenSymbol};
use std::alloc::Global;
use type_layout::Elem;

/// The signal that a symbol names, and whether it is there and the symbol may have one.
#[derive(Clone, Copy)]
pub struct SignalUse {
    pub right: bool,
    pub signal: Option<i64>,
}

/// Rule 14: signals, each used once through all ports.
pub fn wrong_signal(
    alloc: Global,
    known: &KnownTypes,
    signals: u32,
    ports: &[WrittenPort<'_>],
) -> Result<Option<usize>, NoMemory>
    requires { IsKnown known.now }
    ensures { IfOk result (λ place. place ≡ wrong_signal (types_of known.now.types) signals (map port_view ports.now)) }
{
    let uses = uses_of(alloc, known, signals, ports)?;
    first_wrong_use(alloc, uses.as_slice())
}

fn uses_of(
    alloc: Global,
    known: &KnownTypes,
    signals: u32,
    ports: &[WrittenPort<'_>],
) -> Result<Vec<SignalUse>, NoMemory>
    requires { IsKnown known.now }
    ensures { IfOk result (λ uses. map use_view uses.items
        ≡ map (use_of (types_of known.now.types) signals) (flat_map (λ (p : rules.WrittenPort). p.symbols) (map port_view ports.now))) }
{
    let mut uses = Vec::new(alloc);
    for port in ports {
        add_uses(&mut uses, known, signals, port.symbols.as_slice())?;
    }
    Ok(uses)
}

fn add_uses(
    uses: &mut Vec<SignalUse>,
    known: &KnownTypes,
    signals: u32,
    symbols: &[WrittenSymbol<'_>],
) -> Result<(), NoMemory>
    requires { IsKnown known.now }
    ensures { OnOk result (map use_view uses.new.items
        ≡ map use_view uses.old.items ++ map (use_of (types_of known.now.types) signals) (map symbol_view symbols.now)) }
{
    for symbol in symbols {
        let one = use_of(known, signals, symbol);
        uses.push(one)?;
    }
    Ok(())
}

fn use_of(known: &KnownTypes, signals: u32, symbol: &WrittenSymbol<'_>) -> SignalUse
    requires { IsKnown known.now }
    ensures { use_view result ≡ use_of (types_of known.now.types) signals (symbol_view symbol.now) }
{
    match symbol.signal {
        None => SignalUse {
            right: true,
            signal: None,
        },
        Some(n) => SignalUse {
            right: is_signal(signals, n) && may_have_signal(known, symbol.kind),
            signal: Some(n),
        },
    }
}

fn may_have_signal(known: &KnownTypes, text: &[u8]) -> bool
    requires { IsKnown known.now }
    ensures { result ≡ may_have_signal (shape_described (types_of known.now.types) text.now) }
{
    let shape = described_shape(known, text);
    if shape.count == 0 {
        is_plain(shape.elem)
    } else {
        false
    }
}

fn is_plain(elem: Elem) -> bool
    ensures { result ≡ may_have_signal (listed.One (elem_of elem)) }
{
    match elem {
        Elem::Plain(_) => true,
        _ => false,
    }
}

fn first_wrong_use(alloc: Global, uses: &[SignalUse]) -> Result<Option<usize>, NoMemory>
    ensures { IfOk result (λ place. place ≡ first_wrong is_right_use [] (map use_view uses.now)) }
{
    let mut seen = SeenNumbers::new(alloc);
    first_wrong_among(&mut seen, uses)
}

fn first_wrong_among(seen: &mut SeenNumbers, uses: &[SignalUse]) -> Result<Option<usize>, NoMemory>
    requires { seen.old ≡ [] }
    ensures { IfOk result (λ place. place ≡ first_wrong is_right_use [] (map use_view uses.now)) }
{
    for (i, one) in uses.iter().enumerate() {
        if !is_right_use(seen, one)? {
            return Ok(Some(i));
        }
    }
    Ok(None)
}

fn is_right_use(seen: &mut SeenNumbers, one: &SignalUse) -> Result<bool, NoMemory>
    ensures { IfOk result (IsNextUse (use_view one.now) seen.old seen.new) }
{
    match one.signal {
        None => Ok(true),
        Some(n) => note_number(seen, one.right, n),
    }
}
