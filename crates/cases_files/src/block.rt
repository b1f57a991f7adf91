//! Blocks of lines.
ghost use Rattle.std.specs.Prelude.{◌≡◌, IfOk, filter};
ghost use Rattle.std.specs.Str.Lines.{lines};
ghost use Rattle.cases_files.specs.Block.{all_lines, is_kept, mark_of};

use std::alloc::{AllocError, Global};

/// The first octet of a line that isn't white space.
fn mark_of(line: &str) -> Option<u8>
    ensures { result ≡ mark_of line.now }
{
    line.bytes().find(|octet| !octet.is_ascii_whitespace())
}

/// The blocks of a text: its lines without the comments, and empty lines between blocks. A block
/// has no line if there is more than one empty line before it.
pub fn blocks<'a>(alloc: Global, text: &'a str) -> Result<Vec<Vec<&'a str>>, AllocError>
    // Each line is in one block, in order.
    ensures { IfOk result (λ made. all_lines made.items ≡ filter is_kept (lines text.now)) }
{
    let mut ended = Vec::new(alloc);
    let mut block = Vec::new(alloc);
    for line in text.lines() {
        match mark_of(line) {
            None => {
                ended.push(block)?;
                block = Vec::new(alloc);
            }
            Some(b'#') => {}
            Some(_) => block.push(line)?,
        }
    }
    ended.push(block)?;
    Ok(ended)
}
