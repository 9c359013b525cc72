// The limits of the code are those of the definitions.
#![tactic(auto)]

ghost use Rattle.std.specs.Prelude.{◌≡◌, [], ◌∷◌};
ghost use Rattle.limits.specs.Limits.{states, most_cycle_events, most_samples, event_size, sheet_words, block, most_volumes, rate_cells};
ghost use Rattle.limits.specs.Limits.{kernel_cells, bound_cells, most_events, most_boundaries, sheet_rows, sheet_values, cycle_rows};
ghost use Rattle.limits.specs.Limits.{cycle_values, read_amounts, event_bytes, sheet_bytes};

// Every constant of `limits`, in its order.
pub fn sizes() -> [usize; 19]
    ensures { result ≡ states ∷ most_cycle_events ∷ most_samples ∷ event_size ∷ sheet_words ∷ block ∷ most_volumes ∷ rate_cells
        ∷ kernel_cells ∷ bound_cells ∷ most_events ∷ most_boundaries ∷ sheet_rows ∷ sheet_values ∷ cycle_rows ∷ cycle_values
        ∷ read_amounts ∷ event_bytes ∷ sheet_bytes ∷ [] }
{
    [
        limits::STATES,
        limits::CYCLE_EVENTS,
        limits::SAMPLES,
        limits::EVENT_SIZE,
        limits::SHEET_WORDS,
        limits::BLOCK,
        limits::VOLUMES,
        limits::RATE_CELLS,
        limits::KERNEL_CELLS,
        limits::BOUND_CELLS,
        limits::EVENTS,
        limits::BOUNDARIES,
        limits::SHEET_ROWS,
        limits::SHEET_VALUES,
        limits::CYCLE_ROWS,
        limits::CYCLE_VALUES,
        limits::READ_AMOUNTS,
        limits::EVENT_BYTES,
        limits::SHEET_BYTES,
    ]
}
