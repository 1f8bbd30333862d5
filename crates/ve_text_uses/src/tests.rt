mod cut;
mod lines;
mod made;
mod runs;
mod spelling;
mod streams;
mod values;
mod words;

use std::alloc::Global;
use ve_word::Memory;

/// The words of a command line.
fn strings(alloc: Global, line: &str) -> Result<Vec<String>, Memory> {
    let mut strings = Vec::new(alloc);
    for word in line.split_whitespace() {
        strings.push(String::from_str(alloc, word)?)?;
    }
    Ok(strings)
}
