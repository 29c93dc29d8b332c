//! A busy tenant beside others.

use std::alloc::{AllocError, Global};

/// What the busy tenant does before each line, and how many lines that are.
const NOISE: &str = r#"{"do":"open","tenant":"noise","units":["relay","echo"]}
{"do":"post","number":0,"tenant":"noise","text":"n","unit":0}
{"do":"deliver","letter":0,"tenant":"noise"}
{"do":"flush","tenant":"noise","unit":1}
{"do":"kill","tenant":"noise","unit":0}
{"do":"restart","tenant":"noise","unit":0}
{"do":"notice","tenant":"noise","unit":1}
"#;

const NOISE_LINES: u32 = 7;

/// These lines, with the noise before each.
pub(crate) fn with_noise(alloc: Global, steps: &str) -> Result<Vec<u8>, AllocError> {
    let mut all = Vec::new(alloc);
    for line in steps.lines() {
        all.extend_from_slice(NOISE.as_bytes())?;
        all.extend_from_slice(line.as_bytes())?;
        all.push(b'\n')?;
    }
    Ok(all)
}

/// The lines that follow the replies to the noise.
pub(crate) fn every(alloc: Global, text: &[u8]) -> Result<Vec<u8>, AllocError> {
    let mut kept = Vec::new(alloc);
    let mut noise_left = NOISE_LINES;
    for byte in text {
        if noise_left == 0 {
            kept.push(*byte)?;
        }
        if *byte == b'\n' {
            noise_left = noise_left.checked_sub(1).unwrap_or(NOISE_LINES);
        }
    }
    Ok(kept)
}
