// Standard streams that were closed when the program began.
use std::fs::{File, OpenOptions};
use std::io;
use std::os::fd::{AsRawFd, RawFd};

const NULL_DEVICE: &str = "/dev/null";

/// What holds the numbers of the standard streams that were closed. Each of these fails to be read or written, as a
/// closed one does.
#[derive(Drop)]
pub struct HeldStreams {
    input: Option<File>,
    output: Option<File>,
    error: Option<File>,
}

// Opens the null device, and keeps it where it has this number. The system gives the least number that is free, so it
// has this one exactly where all below are taken and this one is not.
fn hold(rt: &HostRuntime, number: RawFd, options: &OpenOptions) -> io::Result<Option<File>> {
    let file = options.open(rt, NULL_DEVICE)?;
    if file.as_raw_fd() == number {
        Ok(Some(file))
    } else {
        Ok(None)
    }
}

/// Takes the numbers of the standard streams that are closed, so that no file that is opened later has one of them:
/// what is written to standard output or standard error would go into that file. Call it before a file is opened, and
/// keep what it gives for as long as files are open.
pub fn hold_closed_streams(rt: &HostRuntime) -> io::Result<HeldStreams> {
    let mut reads = OpenOptions::new();
    reads.read(true);
    let mut writes = OpenOptions::new();
    writes.write(true);
    Ok(HeldStreams {
        input: hold(rt, 0, &writes)?,
        output: hold(rt, 1, &reads)?,
        error: hold(rt, 2, &reads)?,
    })
}
