//! Whether scripts may contain bytes from outside. If none does, no event asks which messages were sent and which marks released, and nothing is
//! kept of them.
use crate::files::{open_of, want_regular_of};
use bench_base::stream::IoSource;
use line_runs::lines::{LineRead, read_line};
use std::fs::File;
use text_streams::ReadAhead;
use trace_runs::LINES;

/// How much of a script is read at once, in bytes.
const AHEAD: usize = 65_536;

// Whether ` hex` follows at this place.
fn has_hex_at(line: &[u8], at: usize) -> bool {
    at < line.len() && line[at..].starts_with(b" hex")
}

// Whether ` hex` is anywhere in the line.
fn has_hex(line: &[u8]) -> bool {
    for at in 0..line.len() {
        if has_hex_at(line, at) {
            return true;
        }
    }
    false
}

// Whether the line may be a `give` or a `scan N hex`.
fn may_be_bytes(line: &[u8]) -> bool {
    line.starts_with(b"give ") || (line.starts_with(b"scan ") && has_hex(line))
}

// Whether a line of the open script may contain bytes. A run ends at a line that is too long, so nothing is read after it.
fn has_bytes(rt: &HostRuntime, opened: File) -> bool {
    let Ok(ahead) = vec![in rt.alloc(); 0; AHEAD] else {
        return true;
    };
    let mut script = ReadAhead::new(IoSource::new(opened), ahead);
    let mut buf = [0; 600];
    for _ in 0..LINES {
        match read_line(&mut script, &mut buf) {
            LineRead::Line(len, _) => {
                if may_be_bytes(&buf[..len as usize]) {
                    return true;
                }
            }
            LineRead::Long | LineRead::End => return false,
            LineRead::Fault => return true,
        }
    }
    false
}

// Whether the script of this run may contain bytes. It is taken to, if it is no regular file, which can be read only once, or if it can't be read.
fn may_bring(rt: &HostRuntime, name: &str) -> bool {
    if want_regular_of(rt, name, ".script").is_err() {
        return true;
    }
    match open_of(rt, name, ".script") {
        Ok(opened) => has_bytes(rt, opened),
        Err(_) => true,
    }
}

/// Whether a script of these runs may have a `give` or a `scan N hex`. Each is looked through up to the first that may.
pub fn may_bring_bytes(rt: &HostRuntime, names: &[String]) -> bool {
    for place in 0..names.len() {
        if may_bring(rt, names[place].as_str()) {
            return true;
        }
    }
    false
}
