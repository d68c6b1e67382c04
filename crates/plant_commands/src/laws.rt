//! What holds of every log in turns, whatever wire it was kept over.

ghost use Rattle.std.specs.Prelude.{List, length};
ghost use Rattle.spec_machine.specs.Profile.{Profile};
ghost use Rattle.spec_machine.specs.Turns.{KeepsTurns};
ghost use Rattle.ads_outside.specs.declared.moves.Move.{Move};
ghost use Rattle.spec_plant.specs.Accepted.{IsAccepted};
ghost use Rattle.spec_plant.specs.Description.{Description};
ghost use Rattle.spec_server.specs.Server.{server, server_start, start_in};
ghost use Rattle.plant_commands.specs.Promises.{HoldsAcceptedIn, KeepsPromises, KeepsPromisesIn};
ghost use Rattle.signals.specs.Wave.{Wave};

/// Every log that keeps the turns of the server keeps the promises: so also the log of `serve` over any wire that tells it. So of
/// the server of either profile. And over an accepted description, writes and handles are held at each move of every log.
pub fn logs_in_turns_keep_promises()
    ensures strict { (d : Description) (waves : List Wave) (log : List Move) → KeepsTurns server (server_start d waves) log
        → KeepsPromises d waves log }
    ensures each { (profile : Profile) (d : Description) (waves : List Wave) (log : List Move)
        → KeepsTurns server (start_in profile d waves) log → KeepsPromisesIn profile d waves log }
    ensures accepted { (profile : Profile) (d : Description) (waves : List Wave) (log : List Move) → IsAccepted d (length waves)
        → HoldsAcceptedIn profile d waves log }
{}
