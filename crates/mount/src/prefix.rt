//! A law of runs and power cuts.

ghost use Rattle.std.specs.Prelude.{◌≡◌, List};
ghost use Rattle.station.specs.Images.{Images};
ghost use Rattle.station.specs.Moments.{MayLeave, LeftBetween};
ghost use Rattle.model.specs.declared.command.Command.{Command};
ghost use Rattle.model.specs.declared.reply.Reply.{Reply};
ghost use Rattle.model.specs.States.{going, failed};
ghost use Rattle.model.specs.Runs.{IsPrefix};
ghost use Rattle.mount.specs.Systems.{Mounted, OpensToSome, file_system_meaning, shown_state};
ghost use Rattle.mount.specs.Applying.{Between, HasRun, ReadsCut};

use station::Station;

/// What a power cut leaves of a run opens to a prefix of it. It does nothing.
///
/// Of a going system: on any station that reads what a cut within the run might have left, `mount`
/// finds the state after the first commands of the run, or one within the next command. A failed
/// system leaves no more than before.
pub fn cut_opens_to_prefix<S: Station, T: Station>()
    ensures going { (old new : Mounted S S.Station) (steps : List (Command × Reply)) (other : T)
        → old.state.mark ≡ going → HasRun old new steps
        → ReadsCut (file_system_meaning old) (file_system_meaning new) (T.meaning other)
        → OpensToSome (T.meaning other) (IsPrefix shown_state Between old steps) (T.meaning other).seen }
    ensures failed { (old new : Mounted S S.Station) (steps : List (Command × Reply)) (c : Images)
        → old.state.mark ≡ failed → HasRun old new steps
        → LeftBetween (file_system_meaning new) (file_system_meaning old).moment (file_system_meaning new).moment c
        → MayLeave (file_system_meaning old) c }
{}
