//! Why no command is read.

ghost use Rattle.std.specs.Prelude.{◌≡◌};
ghost use Rattle.cli_words.specs.declared.refusal.Refusal.TheVariants.{Memory};

use ads_base::NoMemory;

/// Why words give no command.
#[derive(Clone, Copy, Debug, PartialEq, Eq)]
pub(crate) enum Refusal {
    /// The words are off the grammar.
    OffGrammar,
    /// Memory was wanting.
    Memory,
}

impl From<NoMemory> for Refusal {
    ghost from_gives = { λ _ e. e ≡ Memory };

    fn from(_: NoMemory) -> Self {
        Refusal::Memory
    }
}
