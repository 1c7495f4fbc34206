//! A law of handles.

ghost use Rattle.std.specs.Prelude.{◌≡◌, ◌<◌, ℕ, All, List, ◌∷◌};
ghost use Rattle.model.specs.declared.limits.TheConstants.{GREATEST_GENERATION};
ghost use Rattle.model.specs.Trees.{IsUsed};
ghost use Rattle.handles.specs.Handles.{FollowInTurn, Names, Stage, generations_of, last_stage};

use station::Station;

/// Commands led from one file system to another. Where a number has the same generation at the
/// last as at the first, below the greatest one, and is in use at the last, it was free behind none
/// of them, from the first on: so no command gave it anew. It does nothing.
pub fn handles_tell_objects<S: Station>()
    ensures { (first : Stage S S.Station) (stages : List (Stage S S.Station)) (n : ℕ)
        → Names first.numbered first.state → FollowInTurn first stages
        → generations_of first.numbered n < GREATEST_GENERATION
        → IsUsed (last_stage first stages).state.tree n
        → generations_of (last_stage first stages).numbered n ≡ generations_of first.numbered n
        → All (λ (stage : Stage S S.Station). ¬ (¬ IsUsed stage.state.tree n)) (first ∷ stages) }
{}
