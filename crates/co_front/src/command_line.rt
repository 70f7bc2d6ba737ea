//! The words of the command line.

use std::env::{self, Env};
use std::io::{self, ErrorKind};

/// The words after the program's name. Where one is not UTF-8, std gives none of them, and what stands here is the empty
/// word, which is in no command: the words as they are would be none either. What no memory was had for is its only other error.
pub fn words(rt: &(impl Env + AllocGlobal)) -> io::Result<Vec<String>> {
    let mut words = Vec::new(rt.alloc());
    match env::args(rt) {
        Ok(args) => {
            for word in args.skip(1) {
                words.push(word)?;
            }
        }
        Err(error) if error.kind() == ErrorKind::InvalidData => words.push(String::new(
            rt.alloc(),
        ))?,
        Err(error) => return Err(error),
    }
    Ok(words)
}
