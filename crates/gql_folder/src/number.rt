//! Numbers, as texts for readers have them.

use std::alloc::{AllocError, Global};

/// A number with a comma before each three of its last digits, as 65,536.
pub fn with_commas(alloc: Global, number: usize) -> Result<String, AllocError> {
    let digits = format!(in alloc; "{number}")?;
    let digits = digits.as_bytes();
    let mut text = String::new(alloc);
    for (at, digit) in digits.iter().enumerate() {
        if at > 0 && (digits.len() - at) % 3 == 0 {
            text.push(',')?;
        }
        text.push(char::from(*digit))?;
    }
    Ok(text)
}
