//! The same work on plain atomics.
use crate::worker::{READS, SWAPS, TRIES};
use std::alloc::{AllocError, Global};
use std::sync::atomic::{AtomicU64, Ordering};

// Four words, 16 words apart, with 0 in each.
pub fn plain_words(alloc: Global) -> Result<Vec<AtomicU64>, AllocError> {
    let mut words = Vec::new(alloc);
    for _ in 0..64 {
        words.push(AtomicU64::new(0))?;
    }
    Ok(words)
}

// Reads the word.
pub fn plain_reads(word: &AtomicU64) -> u64 {
    let mut sum = 0u64;
    for _ in 0..READS {
        sum = sum.wrapping_add(word.load(Ordering::SeqCst));
    }
    sum
}

// Wins swaps on the word.
pub fn plain_swaps(word: &AtomicU64) -> u64 {
    let mut next = word.load(Ordering::SeqCst);
    let mut won = 0u64;
    for _ in 0..TRIES {
        if won >= SWAPS {
            break;
        }
        match word.compare_exchange(
            next,
            next.wrapping_add(2),
            Ordering::SeqCst,
            Ordering::SeqCst,
        ) {
            Ok(_) => {
                won = won.wrapping_add(1);
                next = next.wrapping_add(2);
            }
            Err(found) => next = found,
        }
    }
    won
}
