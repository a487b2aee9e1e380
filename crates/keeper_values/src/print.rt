// What the program writes.
use keeper::Progress;
use stops::{Stop, stop_number};

pub fn print(rt: &impl Print, text: &[u8]) {
    let _ = rt.write_all(text);
}

// A name, and the number of a stop behind it.
pub fn print_stop(rt: &impl Print, name: &str, stop: Stop) {
    let _ = print!(rt; "{name}{}", stop_number(stop));
}

// What a start said, behind a name.
pub fn print_start<T: Drop>(rt: &impl Print, name: &str, started: Result<T, Stop>) {
    match started {
        Ok(_) => {
            let _ = print!(rt; "{name}begun");
        }
        Err(stop) => print_stop(rt, name, stop),
    }
}

// Prints bytes in hexadecimal.
pub fn print_bytes(rt: &impl Print, s: &[u8]) {
    for b in s {
        let _ = print!(rt; "{b:02x}");
    }
}

// What the last of a number of advances said.
pub fn print_progress(rt: &impl Print, said: Result<Progress, Stop>, advances: usize) {
    match said {
        Ok(Progress::GoingOn) => print(rt, b": going on"),
        Ok(Progress::Saved(_)) => print(rt, b": saved"),
        Ok(Progress::Restored(_)) => print(rt, b": restored"),
        Err(stop) => print_stop(rt, ": stopped ", stop),
    }
    let _ = print!(rt; " after {advances} advances");
}
