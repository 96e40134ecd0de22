// The plants by their numbers. A number that is no plant's has no name, and nothing of it is there.
ghost use Rattle.std.specs.Prelude.{◌≡◌, ◌<◌, length};
ghost use Rattle.hydro_make.specs.Layout.{numbered_reservoir, thermal, line, bus, travel};

use hydro_read::{Bus, Line, Plants, Reservoir, Thermal};

pub(crate) fn reservoir(plants: &Plants, j: usize) -> &Reservoir
    requires { j < length plants.now.reservoirs }
    ensures { result.now ≡ numbered_reservoir plants.now j }
{
    &plants.reservoirs.as_slice()[j]
}

pub(crate) fn thermal(plants: &Plants, i: usize) -> &Thermal
    requires { i < length plants.now.thermals }
    ensures { result.now ≡ thermal plants.now i }
{
    &plants.thermals.as_slice()[i]
}

pub(crate) fn line(plants: &Plants, l: usize) -> &Line
    requires { l < length plants.now.lines }
    ensures { result.now ≡ line plants.now l }
{
    &plants.lines.as_slice()[l]
}

pub(crate) fn bus(plants: &Plants, b: usize) -> &Bus
    requires { b < length plants.now.buses }
    ensures { result.now ≡ bus plants.now b }
{
    &plants.buses.as_slice()[b]
}

/// After how many stages the water of a reservoir is there.
pub(crate) fn travel(plants: &Plants, j: usize) -> u32
    ensures { result ≡ travel plants.now j }
{
    if j >= plants.reservoirs.len() {
        return 0;
    }
    match reservoir(plants, j).downstream {
        Some(travel) => travel.stages,
        None => 0,
    }
}

pub(crate) fn reservoir_name(plants: &Plants, j: usize) -> &str
    ensures { result.now ≡ (numbered_reservoir plants.now j).name }
{
    if j < plants.reservoirs.len() {
        reservoir(plants, j).name.as_str()
    } else {
        ""
    }
}

pub(crate) fn thermal_name(plants: &Plants, i: usize) -> &str
    ensures { result.now ≡ (thermal plants.now i).name }
{
    if i < plants.thermals.len() {
        thermal(plants, i).name.as_str()
    } else {
        ""
    }
}

pub(crate) fn line_name(plants: &Plants, l: usize) -> &str
    ensures { result.now ≡ (line plants.now l).name }
{
    if l < plants.lines.len() {
        line(plants, l).name.as_str()
    } else {
        ""
    }
}

pub(crate) fn bus_name(plants: &Plants, b: usize) -> &str
    ensures { result.now ≡ (bus plants.now b).name }
{
    if b < plants.buses.len() {
        bus(plants, b).name.as_str()
    } else {
        ""
    }
}
