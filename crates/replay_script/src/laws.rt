//! What holds of every script.

ghost use Rattle.std.specs.Prelude.{◌≡◌, ℕ, List, [], Ok};
ghost use Rattle.spec_machine.specs.BuiltLines.{all_lines};
ghost use Rattle.spec_machine.specs.Script.{script_of};
ghost use Rattle.spec_machine.specs.ScriptLine.{ScriptLine};
ghost use Rattle.replay_script.specs.Answering.{HasOneLog, BeginsItsPlay, IsAnsweredAtEachCut};
ghost use Rattle.replay_script.specs.Fresh.{OpenNew};

/// There is one log that keeps the turns and is answered by a script: the script's play.
pub fn a_script_has_one_log<W, C>()
    ensures { HasOneLog W C }
{}

/// A log that keeps the turns and is answered by a script so far begins the script's play; and what is answered so far
/// is so wherever it is cut off.
pub fn a_log_begins_its_play<W, C>()
    ensures begins { BeginsItsPlay W C }
    ensures cut { IsAnsweredAtEachCut }
{}

/// The lines of a script that was read open each connection once.
pub fn scripts_open_new_numbers()
    ensures { (bytes : List ℕ) (lines : List ScriptLine) → script_of all_lines bytes ≡ Ok lines → OpenNew [] lines }
{}
