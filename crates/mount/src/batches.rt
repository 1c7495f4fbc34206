//! Laws of runs in batches and power cuts.

ghost use Rattle.std.specs.Prelude.{ℕ, ◌≡◌, ◌↔◌, ◌++◌, List};
ghost use Rattle.model.specs.declared.command.Command.{Command};
ghost use Rattle.model.specs.declared.reply.Reply.{Reply};
ghost use Rattle.model.specs.Runs.{IsPrefix, Spans};
ghost use Rattle.model.specs.States.{State, going};
ghost use Rattle.system.specs.Images.{OpensTo};
ghost use Rattle.mount.specs.Applying.{Between, ReadsCut};
ghost use Rattle.mount.specs.Batches.{Batch, IsPrefixOfBatches, RunsBatches, SpansBatches, all_steps, one_by_one};
ghost use Rattle.mount.specs.Batching.{BetweenWaiting, RunsInBatches, Settles, meaning_of};
ghost use Rattle.mount.specs.Systems.{Mounted, OpensToSome, file_system_meaning, moment_of, mounted, shown_state};
ghost use Rattle.mount.specs.declared.fs.Fs.{Fs};
ghost use Rattle.mount.specs.declared.waiting.Waiting.{Waiting};

use station::Station;

/// What a power cut leaves of a run in batches opens to whole batches of it. It does nothing.
///
/// Of a going system: on any station that reads what a cut within the run might have left, `mount`
/// finds the state after the first batches, or one within the next that isn't a part of it. So it is
/// the state after the first commands, or one within the next command.
pub fn cut_opens_to_batches<S: Station, T: Station>()
    ensures batches { (first : Fs S S.Station) (s : State) (w : Waiting S S.Station) (batches : List Batch)
        (steps : List (Command × Reply)) (other : T) → s.mark ≡ going
        → RunsInBatches first s w batches steps
        → ReadsCut (file_system_meaning (mounted first s)) (meaning_of w) (T.meaning other)
        → OpensToSome (T.meaning other)
        (IsPrefixOfBatches shown_state Settles Between BetweenWaiting (mounted first s) batches)
        (T.meaning other).seen }
    ensures prefix { (first : Fs S S.Station) (s t : State) (batches : List Batch)
        → IsPrefixOfBatches shown_state Settles Between BetweenWaiting (mounted first s) batches t
        → IsPrefix shown_state BetweenWaiting (mounted first s) (all_steps batches) t }
    // From the moment on when the first batches are durable it is behind these.
    ensures stays { (first : Fs S S.Station) (s : State) (w : Waiting S S.Station) (durable rest : List Batch)
        (steps : List (Command × Reply)) → RunsInBatches first s w (durable ++ rest) steps
        → (now : Mounted S S.Station)
        × RunsBatches shown_state Settles Between BetweenWaiting (mounted first s) durable now
        × ((other : T) → now.state.mark ≡ going
        → ReadsCut (file_system_meaning now) (meaning_of w) (T.meaning other)
        → OpensToSome (T.meaning other)
        (IsPrefixOfBatches shown_state Settles Between BetweenWaiting now rest) (T.meaning other).seen) }
    // A run of commands one by one is a run in batches of one.
    ensures alone { (f last : Mounted S S.Station) (steps : List (Command × Reply))
        (a b : ℕ) → let m = file_system_meaning last in
        Spans m.left_at (λ c t. OpensTo m t c) shown_state moment_of Between f steps last a b
        ↔ SpansBatches shown_state Settles Between BetweenWaiting m.left_at (λ c t. OpensTo m t c)
        moment_of f (one_by_one steps) last a b }
{}
