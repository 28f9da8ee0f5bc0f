//! Tests of the base: byte lists, numbers, ids, paths, entries and messages. They stand in a crate of their own, since a
//! crate that has tests is proved a second time for them.
#![tactic(auto)]

#[cfg(test)]
mod id_map_calls;
#[cfg(test)]
mod program_io_calls;
#[cfg(test)]
mod wire_codec_calls;
#[cfg(test)]
mod xs_base_calls;
#[cfg(test)]
mod xs_path_calls;
#[cfg(test)]
mod xs_perms_calls;
