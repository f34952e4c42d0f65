// Where the order file comes from: the path that is given, or standard input.
use anyhow::{anyhow, bail};
use order_file::reader::MOST_BYTES;
use std::fs::File;
use std::io::Read;
use std::{env, io};

// One byte more than a file may have is enough to tell that it is too long, so no more are read.
const ENOUGH: usize = MOST_BYTES + 1;

// The first bytes of an input, to its end or until they are enough. No `read_to_end`: its first reads are short, and what a packet holds
// beyond a read is lost; and it tries again where a read was interrupted, which is an error here as any other that a read gives.
fn first_bytes(mut from: impl Read + Drop, rt: &HostRuntime) -> io::Result<Vec<u8>> {
    let mut bytes = vec![in rt.alloc(); 0u8; ENOUGH]?;
    let mut have: usize = 0;
    // Each turn reads at least a byte, or ends.
    for _ in 0..ENOUGH {
        if have >= bytes.len() {
            break;
        }
        let more = from.read(&mut bytes[have..])?;
        if more == 0 {
            break;
        }
        have += more;
    }
    bytes.truncate(have);
    Ok(bytes)
}

fn bytes_of(path: &str, rt: &HostRuntime) -> io::Result<Vec<u8>> {
    first_bytes(File::open(rt, path)?, rt)
}

// The bytes of the order file, whole if it is not too long.
pub fn order_file(rt: &HostRuntime) -> anyhow::Result<Vec<u8>> {
    let mut words = env::args(rt)?;
    let _program = words.next();
    let path = words.next();
    if words.next().is_some() {
        bail!("give one order file, or none to read standard input");
    }
    let Some(path) = path else {
        return Ok(first_bytes(rt.stdin(), rt)?);
    };
    match bytes_of(path.as_str(), rt) {
        Ok(bytes) => Ok(bytes),
        // The line is made on the heap, so that want of memory is told as such.
        Err(e) => Err(anyhow!(format!(in rt.alloc(); "cannot read {path}: {e}")?)),
    }
}
