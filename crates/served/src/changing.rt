//! A law of the table of requests.

ghost use Rattle.served.specs.Changing.{ChangesAreFew, WritesChangeByParts};

/// A request comes to at most one command that changes something and isn't refused, but a write in
/// parts, which changes by its own descriptor alone. It does nothing.
pub fn requests_change_once()
    ensures few { ChangesAreFew }
    ensures parts { WritesChangeByParts }
{}
