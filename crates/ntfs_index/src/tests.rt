//! Walks of small trees. What each must give was written down by hand, from the tree.
mod build;
mod keys;
mod rules;
mod trees;
