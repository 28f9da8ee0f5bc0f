//! Tests of the store's parts, and of what is kept of each connection. They stand in a crate of their own, since a
//! crate that has tests is proved a second time for them.
#![tactic(auto)]

#[cfg(test)]
mod conn_rows_calls;
#[cfg(test)]
mod conn_table_calls;
#[cfg(test)]
mod node_tree_calls;
#[cfg(test)]
mod owed_bytes_calls;
#[cfg(test)]
mod path_map_calls;
#[cfg(test)]
mod tree_ops_calls;
#[cfg(test)]
mod txn_access_calls;
#[cfg(test)]
mod watch_events_calls;
#[cfg(test)]
mod watch_table_calls;
#[cfg(test)]
mod watchers_calls;
