//! A line cut into words at its spaces.

ghost use Rattle.std.specs.Prelude.{map, IfOk};
ghost use Rattle.trace_text.specs.Words.{AreWords};

use std::alloc::{AllocError, Global};

/// The words of a line. A word is empty where a space begins or ends the line, or follows another.
pub fn words_of<'a>(alloc: Global, line: &'a [u8]) -> Result<Vec<&'a [u8]>, AllocError>
    ensures { IfOk result (λ words. AreWords line.now (map (λ w. w.now) words.items)) }
{
    let mut words = Vec::new(alloc);
    let mut start = 0;
    for (i, b) in line.iter().enumerate() {
        if *b == b' ' {
            words.push(&line[start..i])?;
            start = i + 1;
        }
    }
    words.push(&line[start..])?;
    Ok(words)
}
