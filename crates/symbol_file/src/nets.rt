//! NetIds of a document, each of which is right.
ghost use Rattle.std.specs.Prelude.{◌≡◌, [], map, option_map, unwrap_or, IfOk, IfSome};
ghost use Rattle.std.specs.List.{All};
ghost use Rattle.spec_rules.specs.Nets.{net_of};
ghost use Rattle.spec_rules.specs.Described.{nets_described};
ghost use Rattle.type_layout.specs.Descriptions.{nets_of};
ghost use Rattle.description_table.specs.Views.{text_view};
ghost use Rattle.symbol_file.specs.Fitting.{IsNetText};

use ads_base::{ListOf, NetId, NoMemory};
use description_rules::read_net;
use std::alloc::Global;
use type_layout::Nets;

/// The NetId that a text writes.
pub fn net_of(text: &[u8]) -> NetId
    requires { IsNetText text.now }
    ensures { result.bytes ≡ unwrap_or (net_of text.now) [] }
{
    match read_net(text) {
        Some(net) => net,
        None => unreachable!(),
    }
}

/// The NetIds that texts write; none where there are no texts.
pub fn maybe_nets(alloc: Global, texts: &Option<Vec<&[u8]>>) -> Result<Nets, NoMemory>
    requires { IfSome texts.now (λ v. All (λ t. IsNetText t.now) v.items) }
    ensures { IfOk result (λ built. nets_of built ≡ nets_described (option_map (λ v. map text_view v.items) texts.now)) }
{
    match texts {
        None => Ok(ListOf::new(alloc)),
        Some(texts) => nets_of(alloc, texts.as_slice()),
    }
}

fn nets_of(alloc: Global, texts: &[&[u8]]) -> Result<Nets, NoMemory>
    requires { All (λ t. IsNetText t.now) texts.now }
    ensures { IfOk result (λ built. nets_of built ≡ map (λ text. unwrap_or (net_of text) []) (map text_view texts.now)) }
{
    let mut built = ListOf::new(alloc);
    for text in texts {
        let net = net_of(text);
        built.push(alloc, net)?;
    }
    Ok(built)
}
