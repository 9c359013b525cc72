// The limits of document 01, and the sizes that follow from them. specs/Limits.antt has the same.
#![tactic(auto)]

// The most states: depot, central and peripherals.
pub const STATES: usize = 4;

// The most events of a sheet, or of a cycle before folding.
pub const CYCLE_EVENTS: usize = 64;

// The most samples of a run.
pub const SAMPLES: usize = 256;

// The words of an event.
pub const EVENT_SIZE: usize = 6;

// The most words of a sheet.
pub const SHEET_WORDS: usize = 8192;

// The width of a block.
pub const BLOCK: usize = 2 * STATES;

// The most volumes: central and peripherals.
pub const VOLUMES: usize = STATES - 1;

// The cells of a matrix of rates.
pub const RATE_CELLS: usize = STATES * STATES;

// The cells of a kernel and of a bound kernel, for C: volume count, depot, volumes and rates, then amounts.
pub const KERNEL_CELLS: usize = 2 + VOLUMES + RATE_CELLS;

pub const BOUND_CELLS: usize = KERNEL_CELLS + STATES;

// The most events of a run: folding yields at most three pieces of each.
pub const EVENTS: usize = 3 * CYCLE_EVENTS;

// The most boundaries: start, end, and two of each event.
pub const BOUNDARIES: usize = 2 * EVENTS + 2;

// The most reckoned rows and values of a sheet's run, and of a run inside a closed cycle, which has no samples.
pub const SHEET_ROWS: usize = 4 * CYCLE_EVENTS + SAMPLES + 2;

pub const SHEET_VALUES: usize = SHEET_ROWS * STATES;

pub const CYCLE_ROWS: usize = 4 * EVENTS + 2;

pub const CYCLE_VALUES: usize = CYCLE_ROWS * STATES;

// How many of a sheet's amounts are read: one more than the most states, so that too many stay too many.
pub const READ_AMOUNTS: usize = STATES + 1;

// The bytes of an event, and the most bytes of a sheet.
pub const EVENT_BYTES: usize = 8 * EVENT_SIZE;

pub const SHEET_BYTES: usize = 8 * SHEET_WORDS;
