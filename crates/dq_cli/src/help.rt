//! Help on captures, on their replies, and on the messages on standard error.

/// The help on captures and their replies.
pub(crate) const CAPTURES: &str = "\
A capture is text, an event a line; empty lines and those that begin with # are skipped:
  open N              connection N is opened; the numbers rise
  piece N HEX         octets that came on it (- is none)
  end N               it has ended
  pull N              the next 64 answers of the C-FIND that is open on it are sent
  schedule NAME HEX   an entry for the worklist of an institution, in Explicit VR
  withdraw NAME HEX   the Scheduled Procedure Step ID of an entry that is to go

Each event has one reply: `N HEX` or `N -`, with `close` behind it where the connection is closed,
`ignored`, `done`, or `refused N`:
  refused 1           the data set cannot be read, or is too long
  refused 2, 3        an attribute is missing, the ID is taken
  refused 4, 5, 6     too many entries, no such entry, no such institution";

/// The help on the messages on standard error and the exit statuses.
pub(crate) const STATUSES: &str = "\
Exit status, and what is told on standard error (serve and check have no capture, loopback no
store, migrate, copy and export neither a capture nor a configuration):
  0                   all was done
  1                   the words are not understood, or help or the version is asked for
  2  config 0         the configuration cannot be read, or is no text
  2  config 1 to 6    bad syntax, bad name, bad title, name taken, route taken, bad limit;
                      check tells it in words before
  2  keys line N      line N of --web-keys is none of keys; 0: the file cannot be read, is no
                      text, or has no key
  3  capture line N   line N is none of a capture; 0: it cannot be read, is too long, or no text
  4  store 2          the store failed, is not a store of rows, or is to be new and is not
  4  store 3          the store is of another version; that of migrate --from is not of version 1
  4  store 4          a row of it is not that of its record, or the row above it is missing
  4  store 5          all was done, but the log could not be copied into the database file
  4  fault 1, 2       memory ran out, the store failed
  4                   the output cannot be written
  5  network          no connections can come in, or the console or the log file cannot be had";
