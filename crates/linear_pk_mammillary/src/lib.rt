// The matrix of rates of a mammillary model: central, up to two peripherals, an optional depot.
// By parameters: the entry that makes a kernel is given clearance, volumes, exchange and absorption one by one, and calls `matrix` once; a struct would be made for that call alone.
#![tactic(auto)]

ghost use Rattle.std.specs.Prelude.{◌≡◌, ◌+◌, ◌≤◌, ◌<◌, length};
ghost use Rattle.std.specs.Float.Ieee.Scale.{finite};
ghost use Rattle.limits.specs.Limits.{states, rate_cells};
ghost use Rattle.matrix.specs.Matrix.{tabulate, all_to};
ghost use Rattle.linear_pk_interval.specs.Interval.{entry};
ghost use Rattle.linear_pk_mammillary.specs.Rates.{central, diagonal_to, central_rate, peripheral_rate, depot_of, absorbed, mammillary_rate, padded_rate, padded_cell, padded};

use limits::{RATE_CELLS, STATES};
use std::array;

// The place of the central state.
pub fn central(depot: bool) -> usize
    ensures { (result ≡ central depot) × (result ≤ 1) }
{
    usize::from(depot)
}

// −CL/V0, then minus q/V0 for each exchange in turn.
fn diagonal(clearance: f64, volumes: &[f64], exchange: &[f64]) -> f64
    requires { 0 < length volumes.now }
    ensures { result ≡ diagonal_to clearance volumes.now exchange.now (length exchange.now) }
{
    let mut sum = -clearance / volumes[0];
    for q in exchange {
        sum = sum - *q / volumes[0];
    }
    sum
}

// The row of the central state: from state j, where c is the central state's place.
fn central_rate(clearance: f64, volumes: &[f64], exchange: &[f64], c: usize, j: usize) -> f64
    requires { (length exchange.now + 1 ≡ length volumes.now) × (c ≤ j) × (j < length volumes.now + c) }
    ensures { result ≡ central_rate clearance volumes.now exchange.now c j }
{
    if j == c {
        return diagonal(clearance, volumes, exchange);
    }
    let v = j - c;
    let e = v - 1;
    exchange[e] / volumes[v]
}

// The row of the peripheral state i.
fn peripheral_rate(volumes: &[f64], exchange: &[f64], c: usize, i: usize, j: usize) -> f64
    requires { (length exchange.now + 1 ≡ length volumes.now) × (c < i) × (i < length volumes.now + c) }
    ensures { result ≡ peripheral_rate volumes.now exchange.now c i j }
{
    let v = i - c;
    let e = v - 1;
    if j == c {
        return exchange[e] / volumes[0];
    }
    if j == i {
        -exchange[e] / volumes[v]
    } else {
        0.0
    }
}

// The rate from state j to state i.
fn rate(
    clearance: f64,
    volumes: &[f64],
    exchange: &[f64],
    absorption: Option<f64>,
    i: usize,
    j: usize,
) -> f64
    requires { (length exchange.now + 1 ≡ length volumes.now) × (i < length volumes.now + central (depot_of absorption))
        × (j < length volumes.now + central (depot_of absorption)) }
    ensures { result ≡ mammillary_rate clearance volumes.now exchange.now (depot_of absorption) (absorbed absorption) i j }
{
    let c = central(absorption.is_some());
    let k = absorption.unwrap_or(0.0);
    if i < c {
        if j < c {
            return -k;
        }
        return 0.0;
    }
    if i == c {
        if j < c {
            return k;
        }
        return central_rate(clearance, volumes, exchange, c, j);
    }
    peripheral_rate(volumes, exchange, c, i, j)
}

// The rate at place c of a kernel's cells: +0 outside the n by n part of its n states.
fn padded_rate(
    clearance: f64,
    volumes: &[f64],
    exchange: &[f64],
    absorption: Option<f64>,
    c: usize,
) -> f64
    requires { length exchange.now + 1 ≡ length volumes.now }
    ensures { result ≡ padded_rate clearance volumes.now exchange.now (depot_of absorption) (absorbed absorption)
        (length volumes.now + central (depot_of absorption)) c }
{
    let n = volumes.len() + central(absorption.is_some());
    let i = c / STATES;
    let j = c % STATES;
    if i < n {
        if j < n {
            return rate(clearance, volumes, exchange, absorption, i, j);
        }
    }
    0.0
}

// The rates of the states of these volumes and this absorption.
pub fn matrix(
    clearance: f64,
    volumes: &[f64],
    exchange: &[f64],
    absorption: Option<f64>,
) -> [f64; RATE_CELLS]
    requires { length exchange.now + 1 ≡ length volumes.now }
    ensures { result ≡ tabulate rate_cells (padded_rate clearance volumes.now exchange.now (depot_of absorption) (absorbed absorption)
        (length volumes.now + central (depot_of absorption))) }
{
    array::from_fn(
        |c|
            requires { length exchange.now + 1 ≡ length volumes.now }
            ensures { result ≡ padded_rate clearance volumes.entry.now exchange.entry.now (depot_of absorption) (absorbed absorption)
                (length volumes.entry.now + central (depot_of absorption)) c }
        { padded_rate(clearance, volumes, exchange, absorption, c) },
    )
}

// Entry i of a list, +0 past its end.
pub fn padded_cell(xs: &[f64], i: usize) -> f64
    ensures { result ≡ padded_cell xs.now i }
{
    if i < xs.len() { xs[i] } else { 0.0 }
}

// The list, then +0.
pub fn padded<const N: usize>(xs: &[f64]) -> [f64; N]
    ensures { result ≡ padded N xs.now }
{
    array::from_fn(
        |i|
            ensures { result ≡ padded_cell xs.entry.now i }
        { padded_cell(xs, i) },
    )
}

// Whether the rates to state i from n states are finite.
// By fixed memory: n, the count of states in use, stands beside the rates of the most states, since there is no heap.
fn row_finite(matrix: [f64; RATE_CELLS], n: usize, i: usize) -> bool
    requires { (i < states) × (n ≤ states) }
    ensures { result ≡ all_to (λ j. finite (entry matrix i j)) n }
{
    (0..n).all(|j| binary64::is_finite(linear_pk_propagator::entry(matrix, i, j)))
}

// Whether the rates of n states are finite.
// By fixed memory: n, the count of states in use, stands beside the rates of the most states, since there is no heap.
pub fn matrix_finite(matrix: [f64; RATE_CELLS], n: usize) -> bool
    requires { n ≤ states }
    ensures { result ≡ all_to (λ i. all_to (λ j. finite (entry matrix i j)) n) n }
{
    (0..n).all(|i| row_finite(matrix, n, i))
}
