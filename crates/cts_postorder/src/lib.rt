//! Binary trees beside their lists of nodes in post-order: the model of a tree that every layer
//! over shapes and trees shares.
//!
//! A tree is kept as a list of its nodes in post-order: all of the left part, all of the right
//! part, then the node above them. A pair names its children by their numbers, a leaf names none.
//! `specs/BinaryTree.antt` has the tree itself, `specs/PostOrder.antt` what it is for a list to be
//! in post-order and the tree at each number, `specs/Occurrence.antt` the pairs above each node,
//! `specs/Pass.antt` the states of upward and downward passes, and `specs/Waiting.antt` that of an
//! upward pass which keeps values of those trees alone that wait for the pair above them; all of
//! them whatever the nodes are, given what children a node names. A layer above cites these
//! definitions, the [`laws`], and the lemmas of `proofs/`: `Lists` for what stands at a number,
//! `Tips` for the tips of a tree, `Upward` and `Downward` for the steps of passes, `Failures` for
//! those that stop, `Alike` for trees of the same form with other nodes, `Zips` for lists that
//! are related place by place, `Stacks` for reading nodes with a stack, whose step
//! `specs/Stack.antt` has, and `Waiting` and `Handed` for passes upward and downward that keep such a
//! stack. Passes are stated over a relation between trees or occurrences and their values, so that a
//! layer need not compute what it defines.
#![tactic(auto)]

pub mod laws;
mod stack;

pub use stack::take_pair;
