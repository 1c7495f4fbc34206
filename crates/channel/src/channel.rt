//! What a server needs of the kernel's side.

ghost use Rattle.std.specs.Io.KnownBytes.{Appends, Consumes, Keeps};
ghost use Rattle.std.specs.Prelude.{◌≡◌, ◌<◌, ◌≤◌, ℕ, Bool, List, Option, Result, Ok, Err, IfOk, MatchResult, length, take};
ghost use Rattle.channel.specs.Sending.{Asked, Went};
ghost use Rattle.channel.specs.declared.channel.Ended.{Ended};
ghost use Rattle.channel.specs.declared.channel.Sent.{Sent};

/// Why no more requests come, or no more replies go.
#[derive(Clone, Copy, Debug, PartialEq, Eq)]
pub enum Ended {
    /// The folder was unmounted.
    Unmounted,
    /// A call failed.
    Failed,
}

/// A request that came.
#[derive(Clone, Copy, Debug, PartialEq, Eq)]
pub struct Received {
    /// So many bytes of the room are the request.
    pub count: usize,
}

/// What became of a reply.
#[derive(Clone, Copy, Debug, PartialEq, Eq)]
pub enum Sent {
    /// It went, whole.
    Whole,
    /// The request was taken back meanwhile: nobody waits for the reply.
    Unwanted,
}

/// The kernel's side of a mounted folder. A call gives one whole request, or takes one whole reply.
pub trait Channel {
    /// Waiting for a request, with room for so many bytes, leads from one channel to another, and
    /// gives this one, or none.
    ghost receives: { Self → Self → ℕ → Result (List ℕ) Ended → Type 0 };

    /// Sending a reply leads from one channel to another, and comes to this.
    ghost sends: { Self → Self → List ℕ → Result Sent Ended → Type 0 };

    /// Asking the kernel by a notification leads from one channel to another, and the kernel takes
    /// it, or doesn't.
    ghost asks: { Self → Self → List ℕ → Bool → Type 0 };

    /// The bytes that are known to come.
    ghost coming: { Self → Option (List ℕ) };

    /// The bytes that are known to have gone.
    ghost gone: { Self → Option (List ℕ) };

    /// Waits for the next request, and puts it into the room's first bytes.
    fn receive(&mut self, room: &mut [u8]) -> Result<Received, Ended>
        ensures fits { IfOk result (λ r. (0 < r.count) × (r.count ≤ length room.new)) }
        ensures receives { MatchResult result
            (λ r. receives self.old self.new (length room.old) (Ok (take r.count room.new)))
            (λ ended. receives self.old self.new (length room.old) (Err ended)) }
        ensures comes { MatchResult result
            (λ r. Consumes (coming self.old) (coming self.new) (take r.count room.new))
            (λ ended. Keeps (coming self.old) (coming self.new)) }
        ensures gone { gone self.new ≡ gone self.old };

    /// Sends a reply.
    fn send(&mut self, reply: &[u8]) -> Result<Sent, Ended>
        ensures sends { sends self.old self.new reply.now result }
        ensures goes { (part : List ℕ) × Went reply.now result part
            × Appends (gone self.old) (gone self.new) part }
        ensures coming { coming self.new ≡ coming self.old };

    /// Sends a notification by which the kernel is asked for a message behind the requests that wait
    /// already. Whether the kernel took it: else no such message comes.
    fn ask(&mut self, question: &[u8]) -> bool
        ensures asks { asks self.old self.new question.now result }
        ensures goes { (part : List ℕ) × Asked question.now result part
            × Appends (gone self.old) (gone self.new) part }
        ensures coming { coming self.new ≡ coming self.old };
}
