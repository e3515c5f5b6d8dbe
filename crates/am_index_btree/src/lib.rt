//! A B-tree over partitions (Graefe's partitioned B-tree: the partition is the leading column of
//! the key), as an index of entries.
//!
//! A leaf has at most 32 entries and an inner node at most 32 children, and all leaves stand at one
//! depth. A full node is halved, but where what is new comes after all that it has: then it stays
//! full, and a node begins with what is new. So a load fills nodes, and so does whatever else comes
//! in order. A node that became empty is freed, and so is a topmost node with one child; nodes that
//! are only sparse are not merged. An insert gets all new nodes before it changes an entry.
//!
//! An inner node has a bit for each child, which says whether an entry below that is a ghost. So the
//! next ghost is found by one way down, and where there is none the root says so. An edit looks at
//! these bits on its way back, and writes those that change.
//!
//! A leaf has room for values of 16 bytes until a longer one comes, and for any from then on, and so
//! it is with keys. So leaves of short records take less memory, and what an undo sets again has the
//! room that it had. Besides inserts, those of a run among them, only `make_room` takes memory, and
//! `copy_rows` for its rows.
#![tactic(auto)]

mod append;
mod btree;
mod fill;
mod find;
mod ghosts;
mod insert;
mod insert_among;
mod make_room;
mod node;
mod portion;
mod read;
mod remove;
mod room;
mod separator;
mod separators;
mod set;
mod spare;

pub use btree::BTree;
