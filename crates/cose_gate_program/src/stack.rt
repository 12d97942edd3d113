//! The stack that a run takes.

/// How many bytes a page of memory has.
const PAGE: usize = 4096;

/// How many pages of stack are used: more than a run takes.
const PAGES: usize = 64;

/// Whether there is the stack that a run takes, 256 KiB. It is used here once, and then counts
/// against a limit on the memory of the process: else what a run allocates could use that limit up,
/// and a later call, for which the stack can't grow, end the process. `seed` is any number that the
/// compiler doesn't know.
pub fn has_stack(seed: usize) -> bool {
    use_pages(PAGES, (seed % 251) as u8) < 252
}

/// Uses so many pages of stack and one more, each in a call of its own, and returns a byte that
/// depends on each of them, so that the compiler leaves none out.
fn use_pages(pages: usize, seed: u8) -> u8 {
    let mut page = [0; PAGE];
    page[usize::from(seed)] = seed;
    if pages == 0 {
        return page[usize::from(seed / 2)];
    }
    let below = use_pages(pages - 1, seed.wrapping_add(1));
    page[usize::from(below)]
}
