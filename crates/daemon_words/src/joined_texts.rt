//! Texts, one behind another.

ghost use Rattle.std.specs.Prelude.{◌≡◌, string_bytes, IfOk, OnOk};
ghost use Rattle.daemon_words.specs.Setups.{joined, line_with};

use ads_base::NoMemory;
use cli_words::Text;
use std::alloc::Global;

/// Texts with a comma and a blank between each two.
pub(crate) fn joined(alloc: Global, texts: &[Text]) -> Result<Text, NoMemory>
    ensures { IfOk result (λ line. line ≡ joined texts.now) }
{
    let mut line = String::new(alloc);
    for text in texts {
        add(&mut line, text.as_str())?;
    }
    Text::copy_of(alloc, line.as_str())
}

fn add(line: &mut String, text: &str) -> Result<(), NoMemory>
    ensures { OnOk result (string_bytes line.new ≡ line_with (string_bytes line.old) text.now) }
{
    if !line.is_empty() {
        line.push_str(", ")?;
    }
    line.push_str(text)?;
    Ok(())
}
