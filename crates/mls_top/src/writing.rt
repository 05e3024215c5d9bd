//! The last phase of a run: the text of an answer is written line by line. No store is in scope here.
ghost use Rattle.std.specs.Prelude.{◌≡◌, ◌≢◌, ◌<◌, ◌≤◌, [], length};
ghost use Rattle.mls_io.specs.Counts.{Rose};
ghost use Rattle.mls_io.specs.Sinks.{Follows, Adds};
ghost use Rattle.mls_top.specs.Writing.{AddsFront};

use memchr::memchr;
use mls_io::sink::{Put, Sink};

/// Writes a text with one put for each of its lines, the newline included.
///
/// After Failed and after Memory a front of the text was written.
pub fn write_lines<K: Sink>(sink: &mut K, text: &[u8]) -> Put
    ensures follows { Follows (K.written sink.old) (K.written sink.new) }
    ensures all { result ≡ Put.All → Adds (K.written sink.old) (K.written sink.new) text.now }
    ensures failed { result ≡ Put.Failed → AddsFront (K.written sink.old) (K.written sink.new) text.now }
    ensures memory { result ≡ Put.Memory → AddsFront (K.written sink.old) (K.written sink.new) text.now }
    ensures counted { result ≡ Put.Failed → Rose (K.written sink.old).faults (K.written sink.new).faults }
{
    let mut left = text;
    while !left.is_empty() {
        let (line, rest) = left.split_at(line_length(left));
        match sink.put(line) {
            Put::All => left = rest,
            Put::Failed => return Put::Failed,
            Put::Memory => return Put::Memory,
        }
    }
    Put::All
}

// How long the first line of a text is, the newline included.
fn line_length(text: &[u8]) -> usize
    requires { text.now ≢ [] }
    ensures some { 0 < result }
    ensures within { result ≤ length text.now }
{
    match memchr(b'\n', text) {
        Some(at) => at + 1,
        None => text.len(),
    }
}
