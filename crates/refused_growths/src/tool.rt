//! Growths of memory that are refused. A tool, tests/refused_growths/tool.c, lies below the program:
//! it sees every growth, and some sizes, which nothing else asks for, tell it what to do. Without
//! it nothing is refused, and these functions change nothing.
use std::alloc::Global;

/// A growth of this many bytes and `n`: from here on the `n`th growth is refused, or none for 0.
const REFUSE_ONE: usize = 7_000_000;

/// The same, and with the `n`th each after it.
const REFUSE_ALL: usize = 8_000_000;

/// A growth of this many bytes and `n` is refused exactly if `n` growths came since.
const ASK: usize = 9_000_000;

/// No edit has more growths.
pub const MOST_GROWTHS: u16 = 60_000;

/// Which growths are refused: the `n`th alone, or each from the `n`th on.
#[derive(Clone, Copy)]
pub enum Refused {
    One,
    AllFrom,
}

/// Whether memory grows by this size.
fn grows(alloc: Global, size: usize) -> bool {
    Vec::<u8>::with_capacity(alloc, size).is_ok()
}

/// Refuses growths from here on.
pub fn refuse(alloc: Global, refused: Refused, n: u16) {
    let size = match refused {
        Refused::One => REFUSE_ONE,
        Refused::AllFrom => REFUSE_ALL,
    };
    let _ = grows(alloc, size + usize::from(n));
}

/// Refuses none from here on, and counts anew. Returns whether the tool is there.
pub fn refuse_none(alloc: Global) -> bool {
    !grows(alloc, REFUSE_ONE)
}

/// Whether this many growths came since it was said what is refused.
pub fn came(alloc: Global, n: u16) -> bool {
    !grows(alloc, ASK + usize::from(n))
}

/// How many growths came since; 0 without the tool.
pub fn growths(alloc: Global) -> u16 {
    for n in 1..MOST_GROWTHS {
        if !came(alloc, n) {
            return n - 1;
        }
    }
    MOST_GROWTHS
}
