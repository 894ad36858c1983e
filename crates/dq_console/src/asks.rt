//! Who asks by requests.
ghost use Rattle.std.specs.Prelude.{◌≡◌, Option, Result};
ghost use Rattle.std.specs.Option.{option_copied};
ghost use Rattle.dq_request.specs.declared.request.Request.{Request};
ghost use Rattle.dq_request.specs.declared.response.Response.{Response};
ghost use Rattle.dq_console.specs.declared.asks.KeysError.{KeysError};

use dq_request::{Request, Response};

/// The reason why keys were not read anew. Those that were there go on to count.
#[derive(Clone, Copy, Debug, PartialEq, Eq)]
pub enum KeysError {
    /// Nobody asks by requests.
    NoFront,
    /// The file cannot be read, or is no text.
    Failed,
    /// The first bad line of the file, counted from 1, or 0 where it has no key.
    Line(u64),
    NoMemory,
}

/// Who asks by requests, as the connections of a web front do: one at a time, with keys of a file.
pub trait Asks {
    /// The request that waits, if one does.
    ghost waiting: { Self → Option Request };

    /// It is given this answer.
    ghost answers: { Self → Self → Response → Type 0 };

    /// Who asks is let go, unanswered.
    ghost lets_go: { Self → Self → Type 0 };

    /// Its keys are read anew, with this outcome.
    ghost rereads: { Self → Self → Result (Unit {0}) KeysError → Type 0 };

    /// The request that waits.
    fn next(&self) -> Option<&Request>
        ensures { option_copied result ≡ waiting self.now };

    /// Answers it.
    fn answer(&mut self, response: &Response)
        ensures { answers self.old self.new response.now };

    /// Lets go who asks the request that waits, unanswered.
    fn let_go(&mut self)
        ensures { lets_go self.old self.new };

    /// Reads its keys anew. The request that waits goes on to wait.
    fn read_keys(&mut self) -> Result<(), KeysError>
        ensures rereads { rereads self.old self.new result }
        ensures waiting { waiting self.new ≡ waiting self.old };
}
