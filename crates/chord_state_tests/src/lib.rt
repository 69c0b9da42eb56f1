//! The tests of the circle (`chord_ident`, `chord_links`, `chord_route`, `chord_ring`), and of the
//! map, its stores and what a node keeps of them (`chord_map`, `chord_store`, `chord_segment`,
//! `chord_handover`, `chord_caller`), of a node (`chord_node`), and of the table whose seats show
//! nodes (`chord_table`).
#![tactic(auto)]

#[cfg(test)]
mod caller;
#[cfg(test)]
mod checks;
#[cfg(test)]
mod circle;
#[cfg(test)]
mod handover;
#[cfg(test)]
mod map;
#[cfg(test)]
mod node;
#[cfg(test)]
mod segment;
#[cfg(test)]
mod store;
#[cfg(test)]
mod table;
