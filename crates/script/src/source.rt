use std::io::Read;
use std::{env, fs, io};

// The script: the file that the first argument names, or standard input if there is none.
pub fn input(rt: &HostRuntime) -> io::Result<Vec<u8>> {
    match env::args(rt)?.nth(1) {
        Some(path) => fs::read(rt, path.as_str()),
        None => {
            let mut text = Vec::new(rt.alloc());
            rt.stdin().read_to_end(&mut text)?;
            Ok(text)
        }
    }
}
