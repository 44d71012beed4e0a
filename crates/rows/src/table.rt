//! The lines of a table, whose cells stand between `|`.

/// Whether a line of a table is a row of it, and neither empty nor a comment.
pub fn is_row(line: &str) -> bool {
    !line.is_empty() && !line.starts_with('#')
}

/// The first cell of a line, without the blanks around it, and what stands behind its `|`.
pub fn cell(line: &str) -> (&str, &str) {
    match line.split_once('|') {
        Some((first, rest)) => (first.trim(), rest),
        None => (line.trim(), ""),
    }
}
