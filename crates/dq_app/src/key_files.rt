//! The file of the web front's keys, read at the start and anew.
ghost use Rattle.std.specs.Prelude.{◌≡◌, ◌≢◌, IfOk, IfErr, IfSome};
ghost use Rattle.dq_web.specs.KeyFiles.{key_lines, AreSpelled};
ghost use Rattle.dq_app.specs.HttpAnswers.{Rereads};

use dq_captures::{Folder, Unread};
use dq_console::KeysError;
use dq_http::HttpServer;
use dq_web::{Keys, KeysFault};
use dq_wires::{GivesUp, Wires};
use std::alloc::Global;

/// Returns why a text has no keys.
fn keys_error_of(fault: KeysFault) -> KeysError
    ensures { result ≢ KeysError.NoFront }
{
    match fault {
        KeysFault::Line(number) => KeysError::Line(number),
        KeysFault::NoMemory => KeysError::NoMemory,
    }
}

/// Returns the keys of a file.
pub(crate) fn keys_of<F: Folder>(alloc: Global, folder: &F, path: &str) -> Result<Keys, KeysError>
    ensures spelled { IfOk result (λ keys. IfSome (F.held folder.now path.now) (λ octets.
        AreSpelled (key_lines octets) keys.entries)) }
    ensures fault { IfErr result (λ error. error ≢ KeysError.NoFront) }
{
    let octets = match folder.read_file(alloc, path) {
        Ok(octets) => octets,
        Err(Unread::NoMemory) => return Err(KeysError::NoMemory),
        Err(Unread::Failed) => return Err(KeysError::Failed),
    };
    let Ok(text) = str::from_utf8(octets.as_slice()) else {
        return Err(KeysError::Failed);
    };
    match Keys::read(alloc, text) {
        Ok(keys) => Ok(keys),
        Err(fault) => Err(keys_error_of(fault)),
    }
}

/// Gives a web front the keys of a file in place of those that it has. A file that is refused changes
/// nothing.
pub(crate) fn reread_keys<F: Folder, W: Wires + GivesUp + Drop>(
    alloc: Global,
    folder: &F,
    path: &str,
    server: &mut HttpServer<W>,
) -> Result<(), KeysError>
    ensures { Rereads (F.held folder.now path.now) server.old server.new result }
{
    match keys_of(alloc, folder, path) {
        Ok(keys) => {
            server.set_keys(keys);
            Ok(())
        }
        Err(error) => Err(error),
    }
}
