//! Text in lines of a given length.
use std::alloc::{AllocError, Global};

/// How many spaces more than the first line the further lines of a broken one begin with.
const HANGING: usize = 4;

pub fn push_spaces(text: &mut String, count: usize) -> Result<(), AllocError> {
    for _ in 0..count {
        text.push(' ')?;
    }
    Ok(())
}

fn is_number(word: &str) -> bool {
    let digits = word.trim_end_matches('.').trim_end_matches(',');
    let mut bytes = digits.bytes();
    !digits.is_empty() && bytes.all(|byte| byte.is_ascii_digit())
}

/// Returns how many letters have to stay in one line, from this word on: a number stays with the word before it.
fn kept_together(word: &str, next: Option<&&str>) -> usize {
    match next {
        Some(next) if is_number(*next) && !is_number(word) => {
            word.len().saturating_add(1).saturating_add(next.len())
        }
        _ => word.len(),
    }
}

/// Adds a line of which each word that goes past this column begins a further line.
fn push_broken(
    alloc: Global,
    text: &mut String,
    line: &str,
    columns: usize,
) -> Result<(), AllocError> {
    let mut words = Vec::new(alloc);
    for word in line.trim_start_matches(' ').split(' ') {
        words.push(word)?;
    }
    let indent = line
        .len()
        .saturating_sub(line.trim_start_matches(' ').len());
    let hanging = indent.saturating_add(HANGING);
    push_spaces(text, indent)?;
    let mut column = indent;
    for (index, word) in words.iter().enumerate() {
        let end = column.saturating_add(1);
        let together = kept_together(*word, words.get(index.saturating_add(1)));
        if index == 0 {
            column = column.saturating_add(word.len());
        } else if end.saturating_add(together) > columns {
            text.push_str("\n")?;
            push_spaces(text, hanging)?;
            column = hanging.saturating_add(word.len());
        } else {
            text.push(' ')?;
            column = end.saturating_add(word.len());
        }
        text.push_str(*word)?;
    }
    Ok(())
}

/// Returns a text of whole lines with those broken that have more columns than this; a longer word stays whole.
pub fn fitted(alloc: Global, text: &str, columns: usize) -> Result<String, AllocError> {
    let mut made = String::new(alloc);
    for line in text.lines() {
        if line.len() > columns {
            push_broken(alloc, &mut made, line, columns)?;
        } else {
            made.push_str(line)?;
        }
        made.push_str("\n")?;
    }
    Ok(made)
}
