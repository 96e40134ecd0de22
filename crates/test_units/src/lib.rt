//! Tests of the libraries by their public names, in a crate of their own so that what they test is proved once.
#![tactic(auto)]

#[cfg(test)]
mod changed_files;
#[cfg(test)]
mod commands;
#[cfg(test)]
mod disks;
#[cfg(test)]
mod draws;
#[cfg(test)]
mod faultless_devices;
#[cfg(test)]
mod file_disks;
#[cfg(test)]
mod fixed_point;
#[cfg(test)]
mod graphs;
#[cfg(test)]
mod journals;
#[cfg(test)]
mod journals_read;
#[cfg(test)]
mod journals_written;
#[cfg(test)]
mod lists;
#[cfg(test)]
mod made_problems;
#[cfg(test)]
mod memory_disks;
#[cfg(test)]
mod memory_files;
#[cfg(test)]
mod plants;
#[cfg(test)]
mod pools;
#[cfg(test)]
mod problems;
#[cfg(test)]
mod records;
#[cfg(test)]
mod references;
#[cfg(test)]
mod seals;
#[cfg(test)]
mod silent_disks;
#[cfg(test)]
mod sinks;
#[cfg(test)]
mod solvers;
#[cfg(test)]
mod sources;
#[cfg(test)]
mod texts;
#[cfg(test)]
mod whole_numbers;
