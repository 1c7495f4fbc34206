//! What a mounted file system may hold.

ghost use Rattle.std.specs.Prelude.{◌≡◌};
ghost use Rattle.model.specs.States.{State, going};
ghost use Rattle.mount.specs.Systems.{Serves, mounted};

use crate::{Fs, Waiting};
use model::Limits;
use station::Station;

impl<S: Station> Fs<S> {
    /// Its limits, with no device call.
    pub fn limits(&self) -> Limits
        ensures { (s : State) → Serves (mounted self.now s) → s.mark ≡ going → result ≡ s.limits }
    {
        self.system.root.geometry.limits()
    }
}

/// The same of a file system whose commands may wait: by the state that it shows.
impl<S: Station> Waiting<S> {
    ghost use Rattle.mount.specs.Batching.{Shows};

    /// Its limits, with no device call.
    pub fn limits(&self) -> Limits
        ensures { (s kept : State) → Shows self.now s kept → result ≡ s.limits }
    {
        self.fs.system.root.geometry.limits()
    }
}
