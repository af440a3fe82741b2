//! A list of parts in their order, for public types that hand out a list and keep its vector to themselves.
//!
//! A layer above names a list by an alias, as `pub type Library = Items<Buffer>`. Contracts see an
//! [`Items`] as the list of what it holds. A type whose lists obey a rule of their own, as a tree in
//! post-order, keeps that rule in its own `impl Model`.
#![tactic(auto)]

use std::marker::Model;

/// A list of parts in their order. It neither grows nor changes, and contracts see the list.
#[derive(Drop)]
pub struct Items<T> {
    items: Vec<T>,
}

impl<T> Model for Items<T> {
    ghost use Rattle.std.specs.Prelude.{List};

    ghost Value = { List T };

    ghost view = { λ list. list.items.items };
}

impl<T> Items<T> {
    ghost use Rattle.std.specs.Prelude.{◌≡◌};

    /// A list of these parts, in this order.
    pub fn of(items: Vec<T>) -> Items<T>
        ensures { result ≡ items.items }
    {
        Items { items }
    }

    /// The parts in order.
    pub fn items(&self) -> &[T]
        ensures { result.now ≡ self.now }
    {
        self.items.as_slice()
    }
}
