// A read or a write that failed, told on standard error.
use std::alloc::{AllocError, Global};
use std::io;

// What stands behind the system's words where an error is printed.
const NUMBER: &str = " (os error ";

// The system's words for what failed.
fn reason(alloc: Global, e: &io::Error) -> Result<String, AllocError> {
    let text = format!(in alloc; "{e}")?;
    match text.rsplit_once(NUMBER) {
        Some((words, _)) => String::from_str(alloc, words),
        None => Ok(text),
    }
}

// One line: what failed, as the caller names it, a colon and the system's words. Where there is no memory for them they stand as the error
// prints them; where standard error cannot be written there is nobody to tell.
pub fn tell<R: Eprint + AllocGlobal>(rt: &R, what: &str, e: io::Error) {
    let _ = match reason(rt.alloc(), &e) {
        Ok(words) => rt.eprintln(format_args!("{what}: {words}")),
        Err(_) => rt.eprintln(format_args!("{what}: {e}")),
    };
}
