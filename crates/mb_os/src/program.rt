//! The program's own words and path, and who started it.

use std::{env, io};

/// The variable by which a child knows who started it: the number of that process.
pub(crate) const STARTED_BY: &str = "MINBFT_STARTED_BY";

/// The words behind the program's own name. One that isn't UTF-8 is an error, as is want of memory.
pub fn words_of(rt: &HostRuntime) -> io::Result<Vec<String>> {
    let mut words = Vec::new(rt.alloc());
    for word in env::args(rt)?.skip(1) {
        words.push(word)?;
    }
    Ok(words)
}

/// The path of the program, by which it starts itself. Where the system doesn't tell it, it is empty, and a start fails.
pub fn own_path(rt: &HostRuntime) -> String {
    match env::current_exe(rt) {
        Ok(path) => path.into_string(),
        Err(_) => String::new(rt.alloc()),
    }
}

/// The number of the process that started this one as a child of its own. None where nothing tells it: then this program was started by hand.
pub fn starter_of(rt: &HostRuntime) -> Option<u32> {
    let Ok(word) = env::var(rt, STARTED_BY) else {
        return None;
    };
    word.as_str().parse::<u32>().ok()
}
