//! Where the shapes stand, in units of an SVG: x to the right, y downwards.

ghost use Rattle.std.specs.Prelude.{◌≡◌, ◌≤◌, ◌^◌};
ghost use Rattle.sig_svg.specs.Places.{lane_x, side_x, row_y, start_y, bend_x, toward};

/// The middle of a lane.
pub(crate) fn lane_x(pid: u32) -> u64
    ensures value { result ≡ lane_x pid }
    ensures bound { result ≤ 2 ^ 48 }
{
    150 * u64::from(pid) + 100
}

/// To the left of a lane's middle.
pub(crate) fn side_x(pid: u32) -> u64
    ensures value { result ≡ side_x pid }
    ensures bound { result ≤ 2 ^ 48 }
{
    150 * u64::from(pid) + 60
}

/// The middle of a row.
pub(crate) fn row_y(row: u32) -> u64
    ensures value { result ≡ row_y row }
    ensures bound { result ≤ 2 ^ 48 }
{
    40 * u64::from(row) + 90
}

/// Where an arrow begins: at its row, or above all rows.
pub(crate) fn start_y(start: Option<u32>) -> u64
    ensures value { result ≡ start_y start }
    ensures bound { result ≤ 2 ^ 48 }
{
    match start {
        Some(row) => row_y(row),
        None => 56,
    }
}

/// Where an arrow bends: in the middle between its lanes, which keeps it straight; at the side, where
/// both are one.
pub(crate) fn bend_x(from: u32, to: u32) -> u64
    ensures value { result ≡ bend_x from to }
    ensures bound { result ≤ 2 ^ 48 }
{
    if from == to {
        side_x(from)
    } else {
        (lane_x(from) + lane_x(to)) / 2
    }
}

/// Where the arrow of a queued signal ends: a third of the way to the receiver's lane; at the side,
/// where that is the sender's.
pub(crate) fn toward(from: u32, to: u32) -> u64
    ensures value { result ≡ toward from to }
    ensures room { 60 ≤ result }
    ensures bound { result ≤ 2 ^ 48 }
{
    if from == to {
        side_x(from)
    } else {
        (2 * lane_x(from) + lane_x(to)) / 3
    }
}
