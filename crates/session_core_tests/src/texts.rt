//! Texts of schemas of many parts.

use std::alloc::AllocError;

/// Appends a union of `many` records, all named R, without fields.
pub(crate) fn push_rows(text: &mut String, many: usize) -> Result<(), AllocError> {
    for row in 0..many {
        let before = if row == 0 { "[" } else { "," };
        write!(
            text,
            "{before}{{\"type\":\"record\",\"name\":\"n{row}.R\",\"fields\":[]}}"
        )?;
    }
    text.push_str("]")?;
    Ok(())
}

/// Appends a record R of `many` ints that are 0 by default.
pub(crate) fn push_fields(text: &mut String, many: usize) -> Result<(), AllocError> {
    text.push_str("{\"type\":\"record\",\"name\":\"R\",\"fields\":")?;
    for field in 0..many {
        let before = if field == 0 { "[" } else { "," };
        write!(
            text,
            "{before}{{\"name\":\"f{field}\",\"type\":\"int\",\"default\":0}}"
        )?;
    }
    text.push_str("]}")?;
    Ok(())
}
